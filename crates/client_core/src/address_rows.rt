//! The rows of an address: its network, and the default route by a router.

ghost use Rattle.std.specs.Prelude.{◌≡◌, ◌≤◌, ◌<◌, [], ◌∷◌, ◌++◌, OnOk};
ghost use Rattle.world.specs.Rows.{IsInterface, IsRow};
ghost use Rattle.client_model.specs.WantedRows.{outlet_of, network_routes, gateway_routes, router_routes, address_rows, network6_of, network6_routes};

use host_tables::HostRows;
use iface_core::metric_of;
use net_types::{Ip4, Ip6, Net, Net4, Net6};
use prefix_share::network_number;
use settings::{Managed, Outlet};
use std::alloc::AllocError;
use world::{HostRow, Via};

/// The length of an IPv6 address in bits, which is the longest prefix.
const WIDTH6: u8 = 128;

/// By where the rows of an interface lead.
pub fn outlet_of(managed: &Managed) -> Outlet
    requires { IsInterface managed.now.spec.index.number }
    ensures { result ≡ outlet_of managed.now }
{
    Outlet {
        iface: managed.spec.index,
        metric: metric_of(managed),
    }
}

/// Appends a route.
pub fn push_route(
    rows: &mut HostRows,
    outlet: Outlet,
    dest: Net,
    via: Via,
) -> Result<(), AllocError>
    requires { IsRow (HostRow.Route outlet.iface dest via outlet.metric) }
    ensures { OnOk result (rows.new ≡ rows.old ++ HostRow.Route outlet.iface dest via outlet.metric ∷ []) }
{
    rows.push(HostRow::Route {
        iface: outlet.iface,
        dest,
        via,
        metric: outlet.metric,
    })
}

/// An address shorter than the whole width gives its network.
fn push_network(rows: &mut HostRows, outlet: Outlet, net: Net4) -> Result<(), AllocError>
    requires { IsInterface outlet.iface.number }
    ensures { OnOk result (rows.new ≡ rows.old ++ network_routes outlet net) }
{
    if net.len < Net4::WIDTH {
        push_route(rows, outlet, Net::V4(net.network()), Via::OnLink)?;
    }
    Ok(())
}

/// A router outside the network is given on the link itself.
pub fn push_gateway(
    rows: &mut HostRows,
    outlet: Outlet,
    net: Net4,
    router: Ip4,
) -> Result<(), AllocError>
    requires { IsInterface outlet.iface.number }
    ensures { OnOk result (rows.new ≡ rows.old ++ gateway_routes outlet net router) }
{
    if !net.contains(router) {
        let host = Net4 {
            ip: router,
            len: Net4::WIDTH,
        };
        push_route(rows, outlet, Net::V4(host), Via::OnLink)?;
    }
    Ok(())
}

/// The default route, by the router.
pub fn push_router(
    rows: &mut HostRows,
    outlet: Outlet,
    net: Net4,
    router: Option<Ip4>,
) -> Result<(), AllocError>
    requires { IsInterface outlet.iface.number }
    ensures { OnOk result (rows.new ≡ rows.old ++ router_routes outlet net router) }
{
    match router {
        None => Ok(()),
        Some(router) => {
            let anywhere = Net4 {
                ip: Ip4::UNSPECIFIED,
                len: 0,
            };
            push_route(rows, outlet, Net::V4(anywhere), Via::Gate4(router))?;
            push_gateway(rows, outlet, net, router)
        }
    }
}

/// An address with its network.
pub fn push_address(rows: &mut HostRows, outlet: Outlet, net: Net4) -> Result<(), AllocError>
    requires index { IsInterface outlet.iface.number }
    requires prefix { net.len ≤ 32 }
    ensures { OnOk result (rows.new ≡ rows.old ++ address_rows outlet net) }
{
    rows.push(HostRow::Addr {
        iface: outlet.iface,
        net: Net::V4(net),
    })?;
    push_network(rows, outlet, net)
}

/// An IPv6 address without the bits past its prefix.
fn network6_of(net: Net6) -> Net6
    requires { net.len < 128 }
    ensures { result ≡ network6_of net }
{
    Net6 {
        ip: Ip6 {
            number: network_number(net),
        },
        len: net.len,
    }
}

/// An IPv6 address shorter than the whole width gives its network.
fn push_network6(rows: &mut HostRows, outlet: Outlet, net: Net6) -> Result<(), AllocError>
    requires { IsInterface outlet.iface.number }
    ensures { OnOk result (rows.new ≡ rows.old ++ network6_routes outlet net) }
{
    if net.len < WIDTH6 {
        push_route(rows, outlet, Net::V6(network6_of(net)), Via::OnLink)?;
    }
    Ok(())
}

/// An IPv6 address with its network.
pub fn push_address6(rows: &mut HostRows, outlet: Outlet, net: Net6) -> Result<(), AllocError>
    requires index { IsInterface outlet.iface.number }
    requires prefix { net.len ≤ 128 }
    ensures { OnOk result (rows.new ≡ rows.old ++ HostRow.Addr outlet.iface (Net.V6 net) ∷ network6_routes outlet net) }
{
    rows.push(HostRow::Addr {
        iface: outlet.iface,
        net: Net::V6(net),
    })?;
    push_network6(rows, outlet, net)
}
