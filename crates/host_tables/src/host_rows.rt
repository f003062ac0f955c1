//! A list of addresses and routes, each of them one that a host can hold, in the order in which they are brought.

ghost use Rattle.std.specs.Prelude.{◌≡◌, ◌↔◌, [], ◌∷◌, ◌++◌, true, OnOk};
ghost use Rattle.std.specs.List.{AllByRecursion};
ghost use Rattle.world.specs.Rows.{IsRow};

use std::alloc::{AllocError, Global};
use std::marker::Model;
use world::HostRow;

/// Rows that a host can hold, in the order in which they are brought.
#[derive(Drop)]
pub struct HostRows {
    rows: Vec<HostRow>,
}

impl Model for HostRows {
    ghost use Rattle.std.specs.Prelude.{List};
    ghost use Rattle.std.specs.List.{AllByRecursion};
    ghost use Rattle.world.specs.declared.rows.HostRow.{HostRow};
    ghost use Rattle.world.specs.Rows.{IsRow};

    ghost Value = { List HostRow };

    ghost view = { λ all. all.rows.items };

    ghost invariant = { λ all. AllByRecursion IsRow all.rows.items };
}

impl HostRows {
    /// No row.
    pub fn new(alloc: Global) -> HostRows
        ensures { result ≡ [] }
    {
        HostRows {
            rows: Vec::new(alloc),
        }
    }

    /// Puts a row at the end; refused for want of memory alone, when nothing changed.
    pub fn push(&mut self, row: HostRow) -> Result<(), AllocError>
        requires { IsRow row }
        ensures { OnOk result (self.new ≡ self.old ++ row ∷ []) }
    {
        self.rows.push(row)?;
        Ok(())
    }

    /// The rows, in the order in which they came.
    pub fn as_slice(&self) -> &[HostRow]
        ensures rows { result.now ≡ self.now }
        ensures fit { AllByRecursion IsRow result.now }
    {
        &self.rows
    }

    /// Appends all of them.
    #[tactic(auto, using(net_types::proofs::AllLaws::all_join))]
    pub fn append(&mut self, more: &HostRows) -> Result<(), AllocError>
        ensures { OnOk result (self.new ≡ self.old ++ more.now) }
    {
        self.rows.extend_from_slice(&more.rows)?;
        Ok(())
    }

    /// Whether these are the same rows.
    pub fn is_same(&self, other: &HostRows) -> bool
        ensures { result ≡ true ↔ self.now ≡ other.now }
    {
        self.rows == other.rows
    }
}
