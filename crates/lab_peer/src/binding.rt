//! Which address is bound to which client, and until when.

ghost use Rattle.std.specs.Prelude.{◌≡◌, ◌^◌, ◌<◌, IfOk, filter, not};
ghost use Rattle.std.specs.List.{list_any};
ghost use Rattle.std.specs.Option.{option_copied};
ghost use Rattle.lab_peer.specs.Bindings as texts;

use lease_text::INFINITE_LEASE;
use net_types::{Ip4, Mac};
use std::alloc::{AllocError, Global};

/// A second, in milliseconds.
pub(crate) const SECOND: u64 = 1000;

/// An address that is bound to a client.
#[derive(Clone, Copy, Debug, PartialEq, Eq)]
pub struct Bound4 {
    pub addr: Ip4,
    /// The hardware address of the client.
    pub mac: Mac,
    /// When it ends, in milliseconds since 1970. None is never.
    pub until: Option<u64>,
}

impl Bound4 {
    fn is_at(&self, addr: Ip4) -> bool
        ensures { result ≡ texts.is_at addr self.now }
    {
        self.addr == addr
    }

    pub(crate) fn is_of(&self, mac: Mac) -> bool
        ensures { result ≡ texts.is_of mac self.now }
    {
        self.mac == mac
    }

    /// Whether it binds this address to this client.
    pub(crate) fn is_bound(&self, addr: Ip4, mac: Mac) -> bool
        ensures { result ≡ texts.is_bound addr mac self.now }
    {
        self.is_at(addr) && self.is_of(mac)
    }

    /// Whether it keeps an address from this client: it is another one's, and lasts.
    pub(crate) fn keeps_from(&self, addr: Ip4, mac: Mac, at: u64) -> bool
        ensures { result ≡ texts.keeps_from addr mac at self.now }
    {
        self.is_at(addr) && !self.is_of(mac) && !is_over(self.until, at)
    }
}

fn is_over(until: Option<u64>, at: u64) -> bool
    ensures { result ≡ texts.is_over until at }
{
    match until {
        None => false,
        Some(until) => until <= at,
    }
}

/// When a lease of so many seconds ends that is granted at a moment.
pub(crate) fn lease_end(lease: u32, at: u64) -> Option<u64>
    requires { at < 10 ^ 15 }
    ensures { result ≡ texts.lease_end lease at }
{
    if lease == INFINITE_LEASE {
        return None;
    }
    Some(at + SECOND * u64::from(lease))
}

fn later(one: Option<u64>, other: Option<u64>) -> Option<u64>
    ensures { result ≡ texts.later one other }
{
    match (one, other) {
        (Some(one), Some(other)) => Some(one.max(other)),
        (Some(_), None) | (None, _) => None,
    }
}

/// The end of a client's new binding of an address: the later one, where the address was the client's before.
fn end_with(mac: Mac, end: Option<u64>, before: Option<&Bound4>) -> Option<u64>
    ensures { result ≡ texts.end_with mac end (option_copied before.entry) }
{
    match before {
        Some(before) if before.is_of(mac) => later(before.until, end),
        Some(_) | None => end,
    }
}

fn binding_of(addr: Ip4, bindings: &[Bound4]) -> Option<&Bound4>
    ensures { option_copied result ≡ texts.binding_of addr bindings.now }
{
    bindings.iter().find(|bound| bound.is_at(addr))
}

/// The address that was bound to a client last.
pub(crate) fn last_address(mac: Mac, bindings: &[Bound4]) -> Option<Ip4>
    ensures { result ≡ texts.last_address mac bindings.now }
{
    let last = bindings.iter().rev().find(|bound| bound.is_of(mac))?;
    Some(last.addr)
}

/// The bindings with that of an address to a client, which is the last one.
pub(crate) fn bind(
    alloc: Global,
    addr: Ip4,
    mac: Mac,
    end: Option<u64>,
    bindings: &[Bound4],
) -> Result<Vec<Bound4>, AllocError>
    ensures { IfOk result (λ all. all.items ≡ texts.bind addr mac end bindings.now) }
{
    let until = end_with(mac, end, binding_of(addr, bindings));
    let mut all = without(alloc, addr, bindings)?;
    all.push(Bound4 { addr, mac, until })?;
    Ok(all)
}

/// The bindings of other addresses.
fn without(alloc: Global, addr: Ip4, bindings: &[Bound4]) -> Result<Vec<Bound4>, AllocError>
    ensures { IfOk result (λ all. all.items ≡ filter (λ bound. not (texts.is_at addr bound)) bindings.now) }
{
    bindings
        .iter()
        .filter(|bound| !bound.is_at(addr))
        .copied()
        .collect(alloc)
}

/// Whether one of these keeps an address from a client.
pub(crate) fn keep_from(bindings: &[Bound4], addr: Ip4, mac: Mac, at: u64) -> bool
    ensures { result ≡ list_any (texts.keeps_from addr mac at) bindings.now }
{
    bindings.iter().any(|bound| bound.keeps_from(addr, mac, at))
}

/// Whether one of these binds an address to a client.
pub(crate) fn have_bound(bindings: &[Bound4], addr: Ip4, mac: Mac) -> bool
    ensures { result ≡ list_any (texts.is_bound addr mac) bindings.now }
{
    bindings.iter().any(|bound| bound.is_bound(addr, mac))
}
