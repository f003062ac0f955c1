//! The calls of the host in a turn, each with its lines in the transcript: its rows are listed where they aren't
//! known, and then changed to the wanted ones.

ghost use Rattle.std.specs.Prelude.{◌≡◌, List, Option, Some, None, IfOk, IfErr, IfSome, filter};
ghost use Rattle.std.specs.List.{AllByRecursion};
ghost use Rattle.world.specs.declared.rows.HostRow.{HostRow};
ghost use Rattle.world.specs.RowOrder.{in_row_order};
ghost use Rattle.world.specs.Rows.{IsRow};
ghost use Rattle.settings.specs.ManagedRows.{is_managed};
ghost use Rattle.host_model.specs.HostTable.{InRowOrder};
ghost use Rattle.device_calls.specs.Calls.{ListRows, Change};
ghost use Rattle.device_calls.specs.Programs.{Then, Done};
ghost use Rattle.device_calls.specs.Does.{Does};
ghost use Rattle.device_calls.specs.Fronts.{HasBegun};
ghost use Rattle.turn_model.specs.Turns.{hosting};
ghost use Rattle.life_devices.specs.Answered.{rows_in, rows_listed, FitsChange};
ghost use Rattle.life_asks.specs.Tables.{known_in, MakesChanges, BeginsChanges, WasKnown, Updates, BeginsUpdate, Hosts, BeginsHosts};

use crate::changes::{changes_by, diff_between};
use crate::tables::{Pending, Table};
use client_core::Diff;
use host_model::HostChange;
use life_devices::{Outside, say_change, say_listing};
use settings::Managed;
use std::alloc::{AllocError, Global};
use std::collections::BTreeSet;
use world::{HostRow, NoMemory};

fn is_on_managed(managed: &[Managed], row: &HostRow) -> bool
    ensures { result ≡ is_managed managed.now row.now }
{
    let iface = row.iface().number;
    managed.iter().any(|m| m.spec.index.number == iface)
}

fn on_managed(
    alloc: Global,
    managed: &[Managed],
    rows: &[HostRow],
) -> Result<Vec<HostRow>, AllocError>
    ensures { IfOk result (λ v. v.items ≡ filter (is_managed managed.now) rows.now) }
{
    rows.iter()
        .filter(|row| is_on_managed(managed, row))
        .copied()
        .collect(alloc)
}

/// These rows, each once.
fn row_set(alloc: Global, rows: &[HostRow]) -> Result<BTreeSet<HostRow>, AllocError>
    ensures { IfOk result (λ set. set.keys ≡ in_row_order rows.now) }
{
    let mut set = BTreeSet::new(alloc);
    for row in rows {
        set.insert(*row)?;
    }
    Ok(set)
}

/// Rows in row order, each once.
fn ordered(alloc: Global, rows: &[HostRow]) -> Result<Vec<HostRow>, AllocError>
    ensures { IfOk result (λ sorted. sorted.items ≡ in_row_order rows.now) }
{
    let set = row_set(alloc, rows)?;
    set.iter().copied().collect(alloc)
}

fn ordered_listing(
    alloc: Global,
    rows: Option<Vec<HostRow>>,
) -> Result<Option<Vec<HostRow>>, AllocError>
    ensures { IfOk result (λ sorted. rows_in sorted ≡ rows_listed rows) }
{
    match rows {
        None => Ok(None),
        Some(rows) => Ok(Some(ordered(alloc, &rows)?)),
    }
}

/// The host's rows in row order, where listing them doesn't fail.
fn list<W: Outside>(
    alloc: Global,
    outside: &mut W,
    text: &mut Vec<u8>,
) -> Result<Option<Vec<HostRow>>, NoMemory>
    ensures does { IfOk result
        (λ rows. Does (Then ListRows Done) (rows_in rows) (W.seen outside.old)
        (W.seen outside.new) text.old.items text.new.items) }
    ensures begun { IfErr result (λ _. HasBegun (Then ListRows Done) (W.seen outside.old) (W.seen outside.new)) }
    ensures in_order { IfOk result (λ rows. IfSome (rows_in rows) InRowOrder) }
    ensures waiting { (W.seen outside.new).waiting ≡ (W.seen outside.old).waiting }
{
    let listed = outside.list(alloc)?;
    let rows = ordered_listing(alloc, listed)?;
    say_listing(&rows, text)?;
    Ok(rows)
}

fn change<W: Outside>(
    outside: &mut W,
    change: HostChange,
    text: &mut Vec<u8>,
) -> Result<bool, NoMemory>
    requires { FitsChange change }
    ensures does { IfOk result
        (λ done. Does (Then (Change change) Done) done (W.seen outside.old)
        (W.seen outside.new) text.old.items text.new.items) }
    ensures begun { IfErr result (λ _. HasBegun (Then (Change change) Done) (W.seen outside.old) (W.seen outside.new)) }
    ensures waiting { (W.seen outside.new).waiting ≡ (W.seen outside.old).waiting }
{
    let done = outside.change(change)?;
    say_change(change, done, text)?;
    Ok(done)
}

/// Makes all the changes. A failed one doesn't stop the others, and makes the table unknown.
fn make_changes<W: Outside>(
    outside: &mut W,
    changes: &[HostChange],
    text: &mut Vec<u8>,
) -> Result<Table, NoMemory>
    requires { AllByRecursion FitsChange changes.now }
    ensures does { IfOk result
        (λ table. MakesChanges changes.now table (W.seen outside.old)
        (W.seen outside.new) text.old.items text.new.items) }
    ensures begun { IfErr result (λ _. BeginsChanges changes.now (W.seen outside.old) (W.seen outside.new)) }
    ensures waiting { (W.seen outside.new).waiting ≡ (W.seen outside.old).waiting }
{
    let mut table = Table::AsWanted;
    for one in changes {
        let done = change(outside, *one, text)?;
        table = table.after(done);
    }
    Ok(table)
}

/// Makes the changes that lead to the wanted rows.
fn update<W: Outside>(
    alloc: Global,
    outside: &mut W,
    diff: &Diff,
    text: &mut Vec<u8>,
) -> Result<Table, NoMemory>
    requires { AllByRecursion IsRow diff.now.come.items }
    ensures does { IfOk result
        (λ table. Updates diff.now table (W.seen outside.old) (W.seen outside.new) text.old.items text.new.items) }
    ensures begun { IfErr result (λ _. BeginsUpdate diff.now (W.seen outside.old) (W.seen outside.new)) }
    ensures waiting { (W.seen outside.new).waiting ≡ (W.seen outside.old).waiting }
{
    let changes = changes_by(alloc, diff)?;
    make_changes(outside, &changes, text)
}

/// Looks at an unknown table, and makes its rows on managed interfaces the wanted ones.
fn look_again<W: Outside>(
    alloc: Global,
    outside: &mut W,
    managed: &[Managed],
    wanted: &[HostRow],
    text: &mut Vec<u8>,
) -> Result<Table, NoMemory>
    requires rows { AllByRecursion IsRow wanted.now }
    requires in_order { InRowOrder wanted.now }
    ensures does { IfOk result
        (λ table. Does (hosting managed.now wanted.now None) (known_in table wanted.now) (W.seen outside.old)
        (W.seen outside.new) text.old.items text.new.items) }
    ensures begun { IfErr result
        (λ _. HasBegun (hosting managed.now wanted.now None) (W.seen outside.old) (W.seen outside.new)) }
    ensures waiting { (W.seen outside.new).waiting ≡ (W.seen outside.old).waiting }
{
    match list(alloc, outside, text)? {
        None => Ok(Table::Unknown),
        Some(rows) => {
            let mine = on_managed(alloc, managed, &rows)?;
            let diff = diff_between(alloc, &mine, wanted)?;
            update(alloc, outside, &diff, text)
        }
    }
}

/// The host calls of a turn: a listing where the table isn't known, then the changes to the wanted rows.
pub fn host_turn<W: Outside>(
    alloc: Global,
    outside: &mut W,
    managed: &[Managed],
    pending: Pending,
    wanted: &[HostRow],
    text: &mut Vec<u8>,
) -> Result<Table, NoMemory>
    requires rows { AllByRecursion IsRow wanted.now }
    requires in_order { InRowOrder wanted.now }
    requires known { (known : Option (List HostRow)) × WasKnown pending wanted.now known }
    ensures does { IfOk result
        (λ table. Hosts managed.now pending wanted.now table (W.seen outside.old)
        (W.seen outside.new) text.old.items text.new.items) }
    ensures begun { IfErr result
        (λ _. BeginsHosts managed.now pending wanted.now (W.seen outside.old) (W.seen outside.new)) }
    ensures waiting { (W.seen outside.new).waiting ≡ (W.seen outside.old).waiting }
{
    match pending {
        Pending::Changes(diff) => update(alloc, outside, &diff, text),
        Pending::Unknown => look_again(alloc, outside, managed, wanted, text),
    }
}
