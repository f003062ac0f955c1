//! The rows of a lease: its address, and its classless routes or its preferred router.

ghost use Rattle.std.specs.Prelude.{◌≡◌, ◌++◌, IfOk, IfSome, OnOk, flat_map, option_and_then, option_map};
ghost use Rattle.std.specs.List.{AllByRecursion};
ghost use Rattle.world.specs.Rows.{IsInterface};
ghost use Rattle.v4_options.specs.Numbers.{addrs_in};
ghost use Rattle.lease_text.specs.Bounds.{FitsLease};
ghost use Rattle.lease_text.specs.Leases.{lease_content, values_content};
ghost use Rattle.client_model.specs.WantedRows.{classless_in, routers_in, classless_rows, preferred, router_for, lease_rows};
ghost use Rattle.client_core.specs.Routing.{HasDestination, routes_by};

use crate::address_rows::{push_address, push_gateway, push_route, push_router};
use crate::kept_values::value_in;
use host_tables::HostRows;
use lease_text::{Lease4, Value};
use net_types::{Ip4, Net, Net4, NoMemory};
use settings::Outlet;
use std::alloc::{AllocError, Global};
use v4_options::code::{CLASSLESS_ROUTES, ROUTERS};
use v4_options::{ClasslessRoute, addr_of, routes_of};
use world::Via;

/// The bytes of an address.
const ADDRESS_LEN: usize = 4;

/// The first of the addresses that are the value, which is the preferred one (RFC 2132, section 3.5). None unless the
/// value is one address or more.
#[tactic(auto, using(crate::proofs::LeaseValues::first_four))]
fn first_address(value: &[u8]) -> Option<Ip4>
    ensures { result ≡ option_and_then preferred (addrs_in value.now) }
{
    if value.is_empty() || value.len() % ADDRESS_LEN != 0 {
        return None;
    }
    addr_of(&value[..ADDRESS_LEN])
}

/// The preferred router.
fn router_of(values: &[Value]) -> Option<Ip4>
    ensures { result ≡ option_and_then preferred (routers_in (values_content values.now)) }
{
    first_address(value_in(values, ROUTERS.into())?)
}

/// The classless routes.
fn classless_of(alloc: Global, values: &[Value]) -> Result<Option<Vec<ClasslessRoute>>, NoMemory>
    ensures routes { IfOk result
        (λ routes. option_map (λ v. v.items) routes ≡ classless_in (values_content values.now)) }
    ensures fit { IfOk result (λ routes. IfSome routes (λ v. AllByRecursion HasDestination v.items)) }
{
    match value_in(values, CLASSLESS_ROUTES.into()) {
        None => Ok(None),
        Some(value) => routes_of(alloc, value),
    }
}

/// A classless route; where its gateway is 0 its destination is on the link (RFC 3442).
fn push_classless(
    rows: &mut HostRows,
    outlet: Outlet,
    net: Net4,
    route: ClasslessRoute,
) -> Result<(), AllocError>
    requires index { IsInterface outlet.iface.number }
    requires fit { HasDestination route }
    ensures { OnOk result (rows.new ≡ rows.old ++ classless_rows outlet net route) }
{
    if route.via.number == 0 {
        return push_route(rows, outlet, Net::V4(route.dest), Via::OnLink);
    }
    push_route(rows, outlet, Net::V4(route.dest), Via::Gate4(route.via))?;
    push_gateway(rows, outlet, net, route.via)
}

/// The classless routes, each after another.
fn push_all_classless(
    rows: &mut HostRows,
    outlet: Outlet,
    net: Net4,
    routes: &[ClasslessRoute],
) -> Result<(), AllocError>
    requires index { IsInterface outlet.iface.number }
    requires fit { AllByRecursion HasDestination routes.now }
    ensures { OnOk result (rows.new ≡ rows.old ++ flat_map (classless_rows outlet net) routes.now) }
{
    for route in routes {
        push_classless(rows, outlet, net, *route)?;
    }
    Ok(())
}

/// The router of the default route: a static one goes before those of a lease.
fn router_for(fixed: Option<Ip4>, values: &[Value]) -> Option<Ip4>
    ensures { result ≡ router_for fixed (values_content values.now) }
{
    match fixed {
        Some(router) => Some(router),
        None => router_of(values),
    }
}

/// Classless routes take the place of routers (RFC 3442).
fn push_lease_routes(
    alloc: Global,
    rows: &mut HostRows,
    outlet: Outlet,
    fixed: Option<Ip4>,
    lease: &Lease4,
) -> Result<(), NoMemory>
    requires { IsInterface outlet.iface.number }
    ensures { OnOk result (rows.new ≡ rows.old ++ routes_by outlet fixed (lease_content lease.now)) }
{
    match classless_of(alloc, &lease.values)? {
        Some(routes) => push_all_classless(rows, outlet, lease.net, &routes)?,
        None => push_router(rows, outlet, lease.net, router_for(fixed, &lease.values))?,
    }
    Ok(())
}

/// Appends the rows of a lease. `fixed` is the interface's static router.
pub fn push_lease(
    alloc: Global,
    rows: &mut HostRows,
    outlet: Outlet,
    fixed: Option<Ip4>,
    lease: Option<&Lease4>,
) -> Result<(), NoMemory>
    requires index { IsInterface outlet.iface.number }
    requires fits { IfSome (option_map (λ lease. lease_content lease.now) lease) FitsLease }
    ensures { OnOk result
        (rows.new ≡ rows.old ++ lease_rows outlet fixed (option_map (λ lease. lease_content lease.now) lease.entry)) }
{
    match lease {
        None => Ok(()),
        Some(lease) => {
            push_address(rows, outlet, lease.net)?;
            push_lease_routes(alloc, rows, outlet, fixed, lease)
        }
    }
}
