//! The turns of a life, walked for one address of an interface.
ghost use Rattle.std.specs.Prelude.{◌≡◌, [], List, IfOk};
ghost use Rattle.std.specs.Option.{option_map};
ghost use Rattle.audit_words.specs.Shown.{FitsSite, site_shown};
ghost use Rattle.basis_turns.specs.BasisFinds.{basis_found, found4, found6, found_by, leased4};
ghost use Rattle.basis_turns.specs.Turns.{shown_after};

use crate::items::{ItemTurns, item_found};
use crate::leases::{LeaseTurns, lease_found};
use crate::locals::local_found;
use crate::probes::ProbedTurns;
use crate::shown_turn::ShownTurn;
use crate::statics::is_static;
use audit_words::Site;
use net_types::{Net, Net4, Net6, NoMemory};
use std::alloc::Global;

/// Why an address may be held, and the turns on which that rests, counted from 0, which is the opening.
#[derive(Clone, Copy)]
pub enum Basis {
    /// It is configured as a static one.
    Static,
    /// It is leased by DHCPv4.
    Lease4(LeaseTurns),
    /// It is leased by DHCPv6.
    Lease6(ItemTurns),
    /// It is a link-local one, and was probed in these turns.
    LinkLocal(ProbedTurns),
}

/// As a leased address, else as a link-local one.
fn leased4(lease: Option<LeaseTurns>, local: Option<ProbedTurns>) -> Option<Basis>
    ensures { result ≡ leased4 lease local }
{
    match (lease, local) {
        (Some(turns), _) => Some(Basis::Lease4(turns)),
        (None, Some(turns)) => Some(Basis::LinkLocal(turns)),
        (None, None) => None,
    }
}

/// The basis of an address of IPv4 that isn't static.
fn found4(
    alloc: Global,
    site: &Site,
    turns: &[ShownTurn],
    net: Net4,
    now: u64,
) -> Result<Option<Basis>, NoMemory>
    requires { FitsSite site.now }
    ensures { IfOk result (λ found. found ≡ found4 (site_shown site.now) net now (shown_after [] turns.now)) }
{
    let lease = lease_found(alloc, site, turns, net, now)?;
    let local = local_found(alloc, site, turns, net)?;
    Ok(leased4(lease, local))
}

/// That of an address of IPv6.
fn found6(
    alloc: Global,
    site: &Site,
    turns: &[ShownTurn],
    net: Net6,
    now: u64,
) -> Result<Option<Basis>, NoMemory>
    ensures { IfOk result (λ found. found ≡ found6 (site_shown site.now) net now (shown_after [] turns.now)) }
{
    let item = item_found(alloc, site, turns, net, now)?;
    Ok(item.map(Basis::Lease6))
}

/// Why an address of an interface may be held after some turns, at a moment in milliseconds since 1970, and the turns
/// on which that rests. There is none where it may not, or for a lease of an earlier life alone.
pub fn basis_in(
    alloc: Global,
    site: &Site,
    turns: &[ShownTurn],
    net: Net,
    now: u64,
) -> Result<Option<Basis>, NoMemory>
    requires { FitsSite site.now }
    ensures { IfOk result (λ found. found ≡ basis_found (site_shown site.now) net now (shown_after [] turns.now)) }
{
    if is_static(site, turns, net) {
        return Ok(Some(Basis::Static));
    }
    match net {
        Net::V4(net) => found4(alloc, site, turns, net, now),
        Net::V6(net) => found6(alloc, site, turns, net, now),
    }
}
