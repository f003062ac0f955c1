//! What is known of the host's table: its rows on managed interfaces.
ghost use Rattle.std.specs.Prelude.{◌≡◌, List};
ghost use Rattle.world.specs.declared.rows.HostRow.{HostRow};
ghost use Rattle.host_model.specs.HostTable.{InRowOrder};
ghost use Rattle.host_model.specs.HostTurn.{applied};
ghost use Rattle.client_core.specs.Leading.{Leads};
ghost use Rattle.turn_model.specs.Turns.{known_with};
ghost use Rattle.life_asks.specs.Tables.{is_known, known_in, WasKnown};

use client_core::Diff;
use host_model::HostChange;

/// What is known of it between two turns.
#[derive(Clone, Copy, PartialEq, Eq)]
pub enum Table {
    /// It has exactly the wanted rows.
    AsWanted,
    /// A call failed, or none was made yet.
    Unknown,
}

/// What is known of it when a step of the client has changed the wanted rows.
#[derive(Drop)]
pub enum Pending {
    /// It has the rows that were wanted before: these changes are still to be made.
    Changes(Diff),
    Unknown,
}

impl Table {
    /// Whether its rows are known.
    pub fn is_known(self) -> bool
        ensures { result ≡ is_known self }
    {
        match self {
            Table::AsWanted => true,
            Table::Unknown => false,
        }
    }

    /// What is known after a change that was asked for.
    pub fn after(self, done: bool) -> Table
        ensures { (change : HostChange) (rows : List HostRow)
            → known_in result (applied change rows) ≡ known_with done change (known_in self rows) }
    {
        if done { self } else { Table::Unknown }
    }

    /// What is known once other rows are wanted.
    pub fn since(self, rows: Diff) -> Pending
        ensures { (before wanted : List HostRow) → InRowOrder before → Leads rows before wanted
            → WasKnown result wanted (known_in self before) }
    {
        match self {
            Table::AsWanted => Pending::Changes(rows),
            Table::Unknown => Pending::Unknown,
        }
    }
}
