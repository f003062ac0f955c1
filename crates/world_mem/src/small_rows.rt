//! A compact form of the host's rows, short for most of IPv4, for records that hold many of them.

ghost use Rattle.std.specs.Prelude.{◌≡◌, IfOk, IfErr};
ghost use Rattle.world_mem.specs.RowForms.{row_of};

use net_types::{IfIndex, Ip4, Net, Net4};
use std::alloc::Global;
use std::marker::Model;
use world::{DeviceAnswer, HostRow, Via};

/// How a row is kept: one of IPv4 by its parts, which are few bytes, and any other behind a box.
#[derive(Drop)]
pub(crate) enum RowForm {
    Addr4 {
        iface: IfIndex,
        net: Net4,
    },
    OnLink4 {
        iface: IfIndex,
        dest: Net4,
        metric: u32,
    },
    Reject4 {
        iface: IfIndex,
        dest: Net4,
        metric: u32,
    },
    Gate4 {
        iface: IfIndex,
        dest: Net4,
        gate: Ip4,
        metric: u32,
    },
    Other(Box<HostRow>),
}

/// A row that takes 24 bytes in a record of many; of IPv6, as many more as the row itself.
#[derive(Drop)]
pub(crate) struct SmallRow {
    form: RowForm,
}

impl Model for SmallRow {
    ghost use Rattle.world.specs.declared.rows.HostRow.{HostRow};
    ghost use Rattle.world_mem.specs.RowForms.{row_of};

    ghost Value = { HostRow };

    ghost view = { λ row. row_of row.form };
}

impl SmallRow {
    pub(crate) fn new(alloc: Global, row: HostRow) -> Result<SmallRow, DeviceAnswer>
        ensures ok { IfOk result (λ small. small ≡ row) }
        ensures err { IfErr result (λ e. e ≡ DeviceAnswer.NoMemory) }
    {
        let form = form_of(alloc, row)?;
        Ok(SmallRow { form })
    }
}

/// The row behind a box.
fn boxed(alloc: Global, row: HostRow) -> Result<RowForm, DeviceAnswer>
    ensures ok { IfOk result (λ form. row_of form ≡ row) }
    ensures err { IfErr result (λ e. e ≡ DeviceAnswer.NoMemory) }
{
    match Box::new(alloc, row) {
        Ok(row) => Ok(RowForm::Other(row)),
        Err(_) => Err(DeviceAnswer::NoMemory),
    }
}

/// The shortest form of a row.
fn form_of(alloc: Global, row: HostRow) -> Result<RowForm, DeviceAnswer>
    ensures ok { IfOk result (λ form. row_of form ≡ row) }
    ensures err { IfErr result (λ e. e ≡ DeviceAnswer.NoMemory) }
{
    match row {
        HostRow::Addr {
            iface,
            net: Net::V4(net),
        } => Ok(RowForm::Addr4 { iface, net }),
        HostRow::Route {
            iface,
            dest: Net::V4(dest),
            via,
            metric,
        } => route4(alloc, iface, dest, via, metric),
        HostRow::Addr {
            net: Net::V6(_),
            ..
        }
        | HostRow::Route {
            dest: Net::V6(_),
            ..
        } => boxed(alloc, row),
    }
}

/// The shortest form of a route of IPv4.
fn route4(
    alloc: Global,
    iface: IfIndex,
    dest: Net4,
    via: Via,
    metric: u32,
) -> Result<RowForm, DeviceAnswer>
    ensures ok { IfOk result (λ form. row_of form ≡ HostRow.Route iface (Net.V4 dest) via metric) }
    ensures err { IfErr result (λ e. e ≡ DeviceAnswer.NoMemory) }
{
    match via {
        Via::OnLink => Ok(RowForm::OnLink4 {
            iface,
            dest,
            metric,
        }),
        Via::Reject => Ok(RowForm::Reject4 {
            iface,
            dest,
            metric,
        }),
        Via::Gate4(gate) => Ok(RowForm::Gate4 {
            iface,
            dest,
            gate,
            metric,
        }),
        Via::Gate6(_) => boxed(
            alloc,
            HostRow::Route {
                iface,
                dest: Net::V4(dest),
                via,
                metric,
            },
        ),
    }
}
