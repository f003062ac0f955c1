//! The rows of a DHCPv6 lease: each of its addresses by itself (RFC 8415, section 18.2.10.1, leaves it to routers to
//! tell the network). A delegated prefix is refused where no longer route leads into it (RFC 7084, WPD-5), and its
//! shares have their subnets.

ghost use Rattle.std.specs.Prelude.{◌≡◌, ◌++◌, IfSome, OnOk, flat_map, option_map};
ghost use Rattle.std.specs.List.{AllByRecursion};
ghost use Rattle.world.specs.Rows.{IsInterface};
ghost use Rattle.settings.specs.Dhcp6Settings.{FitsShareConf};
ghost use Rattle.lease6_text.specs.Bounds.{FitsIa, FitsItem, FitsLease6};
ghost use Rattle.lease6_text.specs.Leases.{ia_content, ias_content, lease6_content};
ghost use Rattle.client_model.specs.WantedRows.{ia_rows, item_rows, lease6_rows};

use crate::address_rows::push_route;
use crate::share_rows::push_shares;
use host_tables::HostRows;
use iface_core::shares_of;
use lease6_text::{IaLease, Item6, Lease6};
use net_types::Net;
use settings::{Outlet, ShareConf};
use std::alloc::{AllocError, Global};
use v6_options::IaKind;
use world::{HostRow, Via};

/// Appends the rows of an item, an address or a prefix; the shares are those of its IA.
fn push_item(
    rows: &mut HostRows,
    outlet: Outlet,
    shares: &[ShareConf],
    kind: IaKind,
    item: Item6,
) -> Result<(), AllocError>
    requires index { IsInterface outlet.iface.number }
    requires shares { AllByRecursion FitsShareConf shares.now }
    requires fits { FitsItem kind item }
    ensures { OnOk result (rows.new ≡ rows.old ++ item_rows outlet shares.now kind item) }
{
    match kind {
        IaKind::Na => rows.push(HostRow::Addr {
            iface: outlet.iface,
            net: Net::V6(item.net),
        }),
        IaKind::Pd => {
            push_route(rows, outlet, Net::V6(item.net), Via::Reject)?;
            push_shares(rows, item.net, shares)
        }
    }
}

fn push_items(
    rows: &mut HostRows,
    outlet: Outlet,
    shares: &[ShareConf],
    kind: IaKind,
    items: &[Item6],
) -> Result<(), AllocError>
    requires index { IsInterface outlet.iface.number }
    requires shares { AllByRecursion FitsShareConf shares.now }
    requires fit { AllByRecursion (FitsItem kind) items.now }
    ensures { OnOk result (rows.new ≡ rows.old ++ flat_map (item_rows outlet shares.now kind) items.now) }
{
    for item in items {
        push_item(rows, outlet, shares, kind, *item)?;
    }
    Ok(())
}

/// Appends the rows of an IA, whose shares are among these.
fn push_ia(
    alloc: Global,
    rows: &mut HostRows,
    outlet: Outlet,
    shares: &[ShareConf],
    ia: &IaLease,
) -> Result<(), AllocError>
    requires index { IsInterface outlet.iface.number }
    requires shares { AllByRecursion FitsShareConf shares.now }
    requires fits { FitsIa (ia_content ia.now) }
    ensures { OnOk result (rows.new ≡ rows.old ++ ia_rows outlet shares.now (ia_content ia.now)) }
{
    let own = shares_of(alloc, ia.iaid, shares)?;
    push_items(rows, outlet, &own, ia.kind, &ia.items)
}

fn push_ias(
    alloc: Global,
    rows: &mut HostRows,
    outlet: Outlet,
    shares: &[ShareConf],
    ias: &[IaLease],
) -> Result<(), AllocError>
    requires index { IsInterface outlet.iface.number }
    requires shares { AllByRecursion FitsShareConf shares.now }
    requires fit { AllByRecursion FitsIa (ias_content ias.now) }
    ensures { OnOk result (rows.new ≡ rows.old ++ flat_map (ia_rows outlet shares.now) (ias_content ias.now)) }
{
    for ia in ias {
        push_ia(alloc, rows, outlet, shares, ia)?;
    }
    Ok(())
}

/// Appends the rows of a lease that is held. `shares` says who gets what of its prefixes.
pub fn push_lease6(
    alloc: Global,
    rows: &mut HostRows,
    outlet: Outlet,
    shares: &[ShareConf],
    lease: Option<&Lease6>,
) -> Result<(), AllocError>
    requires index { IsInterface outlet.iface.number }
    requires shares { AllByRecursion FitsShareConf shares.now }
    requires fits { IfSome (option_map (λ lease. lease6_content lease.now) lease) FitsLease6 }
    ensures { OnOk result
        (rows.new
        ≡ rows.old ++ lease6_rows outlet shares.now (option_map (λ lease. lease6_content lease.now) lease.entry)) }
{
    match lease {
        None => Ok(()),
        Some(lease) => push_ias(alloc, rows, outlet, shares, &lease.ias),
    }
}
