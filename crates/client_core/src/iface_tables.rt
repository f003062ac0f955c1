//! The tables of the rows that interfaces bring: the place of an interface is its place among all of them.

ghost use Rattle.std.specs.Prelude.{◌≡◌, ◌<◌, [], false, length, map, slice_index_or, slice_set, IfOk, OnOk};
ghost use Rattle.settings.specs.Fitting.{FitsManaged};
ghost use Rattle.client_model.specs.Fitting.{AreIfaces};
ghost use Rattle.client_model.specs.WantedRows.{iface_rows};
ghost use Rattle.client_core.specs.Leading.{Alters};

use crate::iface_rows::push_iface;
use client_model::Iface;
use host_tables::{Diff, HostRows, Plain, Steps, Tables};
use net_types::NoMemory;
use std::alloc::Global;

/// The rows that the addresses of an interface bring.
fn rows_of(alloc: Global, iface: &Iface) -> Result<HostRows, NoMemory>
    requires { FitsManaged iface.now.managed }
    ensures { IfOk result (λ rows. rows ≡ iface_rows iface.now) }
{
    let mut rows = HostRows::new(alloc);
    push_iface(alloc, &mut rows, iface)?;
    Ok(rows)
}

/// The tables of these interfaces.
pub fn tables_of(alloc: Global, ifaces: &[Iface]) -> Result<Tables, NoMemory>
    requires { AreIfaces ifaces.now }
    ensures { IfOk result (λ tables. tables ≡ map iface_rows ifaces.now) }
{
    let mut tables = Tables::new(alloc);
    for iface in ifaces {
        let rows = rows_of(alloc, iface)?;
        tables.push(rows)?;
    }
    Ok(tables)
}

/// Brings the rows of the interface at a place up to date, where they may differ, and says how the wanted rows changed,
/// where its rows did.
pub fn renew_rows(
    alloc: Global,
    tables: &mut Tables,
    place: usize,
    iface: &Iface,
    may_differ: bool,
) -> Result<Option<Diff>, NoMemory>
    requires fit { FitsManaged iface.now.managed }
    requires place { place < length tables.old }
    requires same { may_differ ≡ false → slice_index_or tables.old place [] ≡ iface_rows iface.now }
    ensures rows { OnOk result (tables.new ≡ slice_set tables.old place (iface_rows iface.now)) }
    ensures alters { IfOk result (λ diff. Alters diff tables.old tables.new) }
{
    if !may_differ {
        return Ok(None);
    }
    let rows = rows_of(alloc, iface)?;
    if tables.brought(place).is_same(&rows) {
        return Ok(None);
    }
    let diff = tables.change(place, rows, &mut Steps::new(Plain))?;
    Ok(Some(diff))
}
