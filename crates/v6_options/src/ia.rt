//! Identity associations, and what a server gives for them.

use crate::status::Status;
use net_types::Net6;

/// What an IA associates a client with (RFC 8415, sections 12.1 and 12.2).
#[derive(Clone, Copy, Debug, PartialEq, Eq)]
pub enum IaKind {
    /// Addresses: an IA_NA.
    Na,
    /// Prefixes that are delegated: an IA_PD.
    Pd,
}

/// An address, as a net of length 128, or a prefix. The lifetimes are seconds; all ones stand for ever.
#[derive(Clone, Copy, PartialEq, Eq)]
pub struct ItemSaid {
    pub net: Net6,
    pub preferred: u32,
    pub valid: u32,
}

/// An IA as a server says it. T1 and T2 are seconds; all ones stand for ever, and 0 leaves the choice to the client.
#[derive(Drop)]
pub struct IaSaid {
    pub kind: IaKind,
    pub iaid: u32,
    pub t1: u32,
    pub t2: u32,
    pub status: Status,
    pub items: Vec<ItemSaid>,
}
