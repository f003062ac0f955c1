//! What leads from the rows that a host has to those that it is to have.
ghost use Rattle.std.specs.Prelude.{◌≡◌, IfOk, map, reverse};
ghost use Rattle.host_model.specs.HostTable.{InRowOrder};
ghost use Rattle.client_core.specs.Leading.{Leads};
ghost use Rattle.life_asks.specs.Tables.{changes_by};

use client_core::Diff;
use counted_search::{Plain, Steps, beyond};
use host_model::HostChange;
use std::alloc::{AllocError, Global};
use world::HostRow;

fn removals(alloc: Global, gone: &[HostRow]) -> Result<Vec<HostChange>, AllocError>
    ensures { IfOk result (λ v. v.items ≡ map HostChange.Remove (reverse gone.now)) }
{
    gone.iter()
        .rev()
        .map(|row| HostChange::Remove(*row))
        .collect(alloc)
}

fn additions(alloc: Global, come: &[HostRow]) -> Result<Vec<HostChange>, AllocError>
    ensures { IfOk result (λ v. v.items ≡ map HostChange.Add come.now) }
{
    come.iter().map(|row| HostChange::Add(*row)).collect(alloc)
}

/// Removals in the reverse of the row order, then additions in row order.
pub fn changes_by(alloc: Global, diff: &Diff) -> Result<Vec<HostChange>, AllocError>
    ensures { IfOk result (λ v. v.items ≡ changes_by diff.now) }
{
    let mut changes = removals(alloc, &diff.gone)?;
    changes.extend_from_slice(&additions(alloc, &diff.come)?)?;
    Ok(changes)
}

/// What the wanted rows differ in from the known ones.
pub fn diff_between(
    alloc: Global,
    known: &[HostRow],
    wanted: &[HostRow],
) -> Result<Diff, AllocError>
    requires known { InRowOrder known.now }
    requires wanted { InRowOrder wanted.now }
    ensures { IfOk result (λ diff. Leads diff known.now wanted.now) }
{
    let mut steps = Steps::new(Plain);
    let gone = beyond(alloc, known, wanted, &mut steps)?;
    let come = beyond(alloc, wanted, known, &mut steps)?;
    Ok(Diff { gone, come })
}
