//! The rows that the addresses of an interface bring: its static addresses, its leases, its link-local address.

ghost use Rattle.std.specs.Prelude.{◌≡◌, ◌++◌, IfSome, OnOk};
ghost use Rattle.net_types.specs.AddressText.{FitsNet4, FitsNet6};
ghost use Rattle.world.specs.Rows.{IsInterface};
ghost use Rattle.settings.specs.Fitting.{FitsManaged};
ghost use Rattle.client_model.specs.WantedRows.{is_in_force, static_rows, static6_rows, local_rows, iface_rows};

use crate::address_rows::{outlet_of, push_address, push_address6, push_router};
use crate::lease_rows::push_lease;
use crate::lease6_rows::push_lease6;
use client_model::Iface;
use host_tables::HostRows;
use iface_core::{iface_held, iface_lease, iface_lease6};
use net_types::{Ip4, Net4, Net6, NoMemory};
use settings::{IfConf, Outlet};
use std::alloc::{AllocError, Global};

/// The length of the link-local network, 169.254/16 (RFC 3927, section 2.1).
const LOCAL_LEN: u8 = 16;

/// Whether the static addresses of an interface are in force.
pub fn is_in_force(iface: &Iface) -> bool
    ensures { result ≡ is_in_force iface.now }
{
    iface.up && !iface.stopped
}

/// A static address is in force while the carrier is up and no stop came.
fn push_static(
    rows: &mut HostRows,
    outlet: Outlet,
    in_force: bool,
    conf: &IfConf,
) -> Result<(), AllocError>
    requires index { IsInterface outlet.iface.number }
    requires fits { IfSome conf.now.address FitsNet4 }
    ensures { OnOk result (rows.new ≡ rows.old ++ static_rows outlet in_force conf.now.address conf.now.router) }
{
    match conf.address {
        Some(net) if in_force => {
            push_address(rows, outlet, net)?;
            push_router(rows, outlet, net, conf.router)
        }
        Some(_) => Ok(()),
        None => Ok(()),
    }
}

/// A static IPv6 address is in force as one of IPv4 is.
fn push_static6(
    rows: &mut HostRows,
    outlet: Outlet,
    in_force: bool,
    address: Option<Net6>,
) -> Result<(), AllocError>
    requires index { IsInterface outlet.iface.number }
    requires fits { IfSome address FitsNet6 }
    ensures { OnOk result (rows.new ≡ rows.old ++ static6_rows outlet in_force address) }
{
    match address {
        Some(net) if in_force => push_address6(rows, outlet, net),
        Some(_) => Ok(()),
        None => Ok(()),
    }
}

/// The rows of a link-local address.
fn push_local(rows: &mut HostRows, outlet: Outlet, local: Option<Ip4>) -> Result<(), AllocError>
    requires { IsInterface outlet.iface.number }
    ensures { OnOk result (rows.new ≡ rows.old ++ local_rows outlet local) }
{
    match local {
        None => Ok(()),
        Some(ip) => push_address(rows, outlet, Net4 { ip, len: LOCAL_LEN }),
    }
}

/// Appends the rows that the addresses of an interface bring.
pub fn push_iface(alloc: Global, rows: &mut HostRows, iface: &Iface) -> Result<(), NoMemory>
    requires { FitsManaged iface.now.managed }
    ensures { OnOk result (rows.new ≡ rows.old ++ iface_rows iface.now) }
{
    let outlet = outlet_of(&iface.managed);
    let conf = &iface.managed.conf;
    push_static(rows, outlet, is_in_force(iface), conf)?;
    push_static6(rows, outlet, is_in_force(iface), conf.address6)?;
    push_lease(alloc, rows, outlet, conf.router, iface_lease(iface))?;
    push_local(rows, outlet, iface_held(iface))?;
    push_lease6(alloc, rows, outlet, &conf.dhcp6.shares, iface_lease6(iface))?;
    Ok(())
}
