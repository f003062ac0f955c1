//! Which items are the client's, why they go, and when.

use net_types::Ip6;

/// Which items of the kept lease are the client's own.
#[derive(Clone, Copy, PartialEq, Eq)]
pub enum Scope6 {
    /// None: others are asked for, or nothing is.
    Nothing,
    /// All: they are held.
    All,
    /// Those that were valid at this moment: they are asked for again.
    Since(u64),
}

/// Why items go.
#[derive(Clone, Copy, PartialEq, Eq)]
pub enum Cause6 {
    /// Their valid lifetime is over at this moment.
    Lapse(u64),
    /// Another host uses this address.
    Duplicate(Ip6),
}

/// Whether some of the client's items go, and whether some stay.
#[derive(Clone, Copy, PartialEq, Eq)]
pub struct Parting6 {
    pub goes: bool,
    pub stays: bool,
}

/// The moments of the client's items: when they are renewed, when they are rebound, and when the first of them isn't
/// valid any more.
#[derive(Clone, Copy, PartialEq, Eq)]
pub struct Dates6 {
    pub t1: Option<u64>,
    pub t2: Option<u64>,
    pub lapse: Option<u64>,
}
