//! What a DHCPv6 lease says.

use lease_text::{Origin, Value};
use net_types::{Name, Net6};
use v6_options::{Duid, IaKind};

/// One more than the latest moment of a lease, in milliseconds since 1970.
pub const MOMENT6_LIMIT: u64 = 10_000_000_000_000_000;
/// The most IAs of a lease.
pub const IA_LIMIT: usize = 6;
/// The most items of an IA.
pub const ITEM_LIMIT: usize = 4;
/// The length of an item that is an address.
pub const ADDRESS_LEN: u8 = 128;
/// The least length of a prefix that is delegated, and the greatest.
pub const SHORTEST_DELEGATED: u8 = 8;

pub const LONGEST_DELEGATED: u8 = 127;

/// An address or a prefix of an IA (RFC 8415, sections 21.6 and 21.22). Its moments are milliseconds since 1970; None
/// is never.
#[derive(Clone, Copy, PartialEq, Eq)]
pub struct Item6 {
    /// An address has the length `ADDRESS_LEN`.
    pub net: Net6,
    /// When it is no longer preferred, and when it is no longer valid.
    pub preferred: Option<u64>,
    pub valid: Option<u64>,
}

/// An IA with what was granted for it (RFC 8415, section 12).
#[derive(Drop)]
pub struct IaLease {
    pub kind: IaKind,
    pub iaid: u32,
    pub items: Vec<Item6>,
}

/// What one server granted to an interface (RFC 8415, section 18.2.10.1).
#[derive(Drop)]
pub struct Lease6 {
    /// None where the text that it was read from didn't tell it.
    pub origin: Option<Origin>,
    /// The interface that holds it.
    pub name: Name,
    /// The server that granted it.
    pub server: Duid,
    /// When it is renewed, and when it is rebound, in milliseconds since 1970; None is never.
    pub t1: Option<u64>,
    pub t2: Option<u64>,
    pub ias: Vec<IaLease>,
    /// The values that came with it, by rising code.
    pub values: Vec<Value>,
}
