//! The rows of the shares of delegated prefixes (RFC 3633, section 12.1): each interface has its subnet of the prefix.

ghost use Rattle.std.specs.Prelude.{◌≡◌, ◌++◌, OnOk, Some, flat_map};
ghost use Rattle.std.specs.List.{AllByRecursion};
ghost use Rattle.world.specs.Rows.{IsInterface};
ghost use Rattle.settings.specs.Dhcp6Settings.{FitsShareConf};
ghost use Rattle.client_model.specs.WantedRows.{subnet_rows, share_rows};
ghost use Rattle.iface_core.specs.Shares.{IsSubnet};

use crate::address_rows::push_route;
use host_tables::HostRows;
use iface_core::first_address;
use net_types::{Net, Net6};
use prefix_share::subnet;
use settings::{Outlet, ShareConf};
use std::alloc::AllocError;
use world::{HostRow, Via};

/// Appends the rows of a subnet: its first address, and its route.
fn push_subnet(rows: &mut HostRows, outlet: Outlet, net: Net6) -> Result<(), AllocError>
    requires index { IsInterface outlet.iface.number }
    requires subnet { IsSubnet net }
    ensures { OnOk result (rows.new ≡ rows.old ++ subnet_rows outlet (Some net)) }
{
    rows.push(HostRow::Addr {
        iface: outlet.iface,
        net: Net::V6(first_address(net)),
    })?;
    push_route(rows, outlet, Net::V6(net), Via::OnLink)
}

/// Appends the rows of a share, on its own interface.
fn push_share(rows: &mut HostRows, prefix: Net6, share: &ShareConf) -> Result<(), AllocError>
    requires { FitsShareConf share.now }
    ensures { OnOk result (rows.new ≡ rows.old ++ share_rows prefix share.now) }
{
    match subnet(prefix, &share.share) {
        Some(net) => push_subnet(rows, share.outlet, net),
        None => Ok(()),
    }
}

/// Appends the rows of the shares of a prefix.
pub fn push_shares(
    rows: &mut HostRows,
    prefix: Net6,
    shares: &[ShareConf],
) -> Result<(), AllocError>
    requires { AllByRecursion FitsShareConf shares.now }
    ensures { OnOk result (rows.new ≡ rows.old ++ flat_map (share_rows prefix) shares.now) }
{
    for share in shares {
        push_share(rows, prefix, share)?;
    }
    Ok(())
}
