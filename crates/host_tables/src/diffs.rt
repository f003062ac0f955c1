//! Changes of the wanted rows, one after another, as one: a change more costs searches for its own rows, however many
//! came before.

ghost use Rattle.std.specs.Prelude.{◌≡◌, not, ◌||◌, ◌&&◌, List, IfOk, OnOk};
ghost use Rattle.world.specs.declared.rows.HostRow.{HostRow};
ghost use Rattle.world.specs.RowOrder.{has_row};
ghost use Rattle.host_model.specs.HostTable.{InRowOrder};
ghost use Rattle.host_tables.specs.Unions.{Differ, Sums};

use crate::union::Diff;
use net_types::NoMemory;
use std::alloc::{AllocError, Global};
use std::collections::BTreeSet;
use world::HostRow;

/// What several changes make of the wanted rows, one after another.
#[derive(Drop)]
pub struct Diffs {
    gone: BTreeSet<HostRow>,
    come: BTreeSet<HostRow>,
}

/// Puts those of the rows into a set that others lack.
fn put_beyond(
    set: &mut BTreeSet<HostRow>,
    rows: &[HostRow],
    others: &BTreeSet<HostRow>,
) -> Result<(), AllocError>
    ensures has { OnOk result
        ((q : HostRow)
        → has_row set.new.keys q
        ≡ (has_row set.old.keys q || (not (has_row others.now.keys q) && has_row rows.now q))) }
    ensures in_order { OnOk result (InRowOrder set.old.keys → InRowOrder set.new.keys) }
{
    for row in rows {
        if !others.contains(row) {
            let _is_new = set.insert(*row)?;
        }
    }
    Ok(())
}

/// Takes rows out of a set.
fn take_each(set: &mut BTreeSet<HostRow>, rows: &[HostRow])
    ensures has { (q : HostRow) → has_row set.new.keys q ≡ (has_row set.old.keys q && not (has_row rows.now q)) }
    ensures in_order { InRowOrder set.old.keys → InRowOrder set.new.keys }
{
    for row in rows {
        let _was_there = set.remove(row);
    }
}

/// The rows of a set, in order.
fn rows_of(alloc: Global, set: &BTreeSet<HostRow>) -> Result<Vec<HostRow>, AllocError>
    ensures { IfOk result (λ rows. rows.items ≡ set.now.keys) }
{
    if set.is_empty() {
        return Ok(Vec::new(alloc));
    }
    set.iter().copied().collect(alloc)
}

impl Diffs {
    /// Nothing changes.
    pub fn none(alloc: Global) -> Diffs
        ensures { (places : List (List HostRow)) → Sums places places result }
    {
        Diffs {
            gone: BTreeSet::new(alloc),
            come: BTreeSet::new(alloc),
        }
    }

    /// One change more. A row that was there before all and is there after them is neither gone nor come.
    pub fn add(&mut self, change: &Diff) -> Result<(), NoMemory>
        ensures { OnOk result
            ((before between after : List (List HostRow)) → Sums before between self.old
            → Differ between after change.now → Sums before after self.new) }
    {
        put_beyond(&mut self.gone, &change.gone, &self.come)?;
        take_each(&mut self.come, &change.gone);
        put_beyond(&mut self.come, &change.come, &self.gone)?;
        take_each(&mut self.gone, &change.come);
        Ok(())
    }

    /// All of them, as one change.
    pub fn into_diff(self, alloc: Global) -> Result<Diff, NoMemory>
        ensures { IfOk result
            (λ diff. (before after : List (List HostRow)) → Sums before after self → Differ before after diff) }
    {
        Ok(Diff {
            gone: rows_of(alloc, &self.gone)?,
            come: rows_of(alloc, &self.come)?,
        })
    }
}
