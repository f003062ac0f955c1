//! Classless routes (RFC 3442).

ghost use Rattle.std.specs.Prelude.{◌≡◌, ◌<◌, ◌≤◌, ◌∷◌, length, is_some, IfOk, IfSome, None, MatchOption};
ghost use Rattle.std.specs.Option.{option_map};
ghost use Rattle.v4_options.specs.Routes.{network, all_routes, routes_in};

use crate::numbers::address_at;
use net_types::{Ip4, Net4, NoMemory};
use std::alloc::{AllocError, Global};

/// The bytes of an address.
const ADDRESS_LEN: usize = 4;

/// A route to a network by a gateway. A gateway of 0 says that the network is on the link.
#[derive(Clone, Copy, PartialEq, Eq)]
pub struct ClasslessRoute {
    pub dest: Net4,
    pub via: Ip4,
}

/// The network of `width` bits whose first bytes were sent. The bits past the width are cleared.
fn network(width: u8, sent: &[u8]) -> Net4
    requires width { width ≤ 32 }
    requires sent { length sent.now ≤ 4 }
    ensures { result ≡ network width sent.now }
{
    let mut octets = [0; 4];
    octets[..sent.len()].copy_from_slice(sent);
    let destination = Net4 {
        ip: Ip4::from_octets(octets),
        len: width,
    };
    destination.network()
}

/// The route at the front of a value, and the value after it.
#[tactic(auto, using(crate::proofs::RouteSteps::too_wide, crate::proofs::RouteSteps::too_short, crate::proofs::RouteSteps::one_route))]
fn split_route(value: &[u8]) -> Option<(ClasslessRoute, &[u8])>
    requires { 0 < length value.now }
    ensures route { MatchOption result (all_routes value.now ≡ None)
        (λ x. all_routes value.now ≡ option_map (λ routes. x.0 ∷ routes) (all_routes x.1.now)) }
    ensures shorter { IfSome result (λ x. length x.1.now < length value.now) }
{
    let (front, rest) = value.split_at(1);
    let width = front[0];
    if width > Net4::WIDTH {
        return None;
    }
    let sent = (width as usize + 7) / 8;
    if rest.len() < sent + ADDRESS_LEN {
        return None;
    }
    let (dest, after) = rest.split_at(sent);
    let (via, others) = after.split_at(ADDRESS_LEN);
    let route = ClasslessRoute {
        dest: network(width, dest),
        via: address_at(via),
    };
    Some((route, others))
}

fn all_routes(alloc: Global, value: &[u8]) -> Result<Option<Vec<ClasslessRoute>>, AllocError>
    ensures { IfOk result (λ routes. option_map (λ v. v.items) routes ≡ all_routes value.now) }
{
    let mut routes = Vec::new(alloc);
    let mut rest = value;
    'routes: while !rest.is_empty() {
        let Some((route, others)) = split_route(rest) else {
            return Ok(None);
        };
        routes.push(route)?;
        rest = others;
    }
    Ok(Some(routes))
}

/// The routes that are the value: option 121. None unless it is one route or more, each of a width of at most 32.
pub fn routes_of(alloc: Global, value: &[u8]) -> Result<Option<Vec<ClasslessRoute>>, NoMemory>
    ensures { IfOk result (λ routes. option_map (λ v. v.items) routes ≡ routes_in value.now) }
{
    if value.is_empty() {
        return Ok(None);
    }
    match all_routes(alloc, value) {
        Ok(routes) => Ok(routes),
        Err(_) => Err(NoMemory),
    }
}

/// Whether the value is routes as `routes_of` reads them. It takes no memory.
#[tactic(auto, using(crate::proofs::RouteSteps::no_routes, crate::proofs::RouteSteps::mapped_is_some))]
pub fn are_routes(value: &[u8]) -> bool
    ensures { result ≡ is_some (routes_in value.now) }
{
    if value.is_empty() {
        return false;
    }
    let mut rest = value;
    'routes: while !rest.is_empty() {
        let Some((_, others)) = split_route(rest) else {
            return false;
        };
        rest = others;
    }
    true
}
