//! What is kept of an interface from turn to turn, to tell whether a lease of an earlier life may be held.

use v6_message::Kind6;

/// How far a server was asked for the kept lease of DHCPv4 (RFC 2131, section 3.2).
#[derive(Clone, Copy, PartialEq, Eq)]
pub enum Asked4 {
    /// Nothing was said yet.
    Nothing,
    /// REQUESTs for its address were said alone, all of one transaction id. It is confirmed where an ACK came.
    Again { xid: u32, confirmed: bool },
    /// It can't be held any more.
    Over,
}

/// Whether an interface has carrier, and how far it asked for its kept lease of DHCPv4.
#[derive(Clone, Copy, PartialEq, Eq)]
pub struct Kept4 {
    pub up: bool,
    pub asked: Asked4,
}

/// How far servers were asked for the kept lease of DHCPv6 (RFC 8415, section 18.2.12).
#[derive(Clone, Copy, PartialEq, Eq)]
pub enum Asked6 {
    /// Nothing was said yet.
    Nothing,
    /// REBINDs were said alone, all of one transaction id, the first of them at `since`, and no good Reply came.
    Again { xid: u32, since: u64 },
    /// It can't be held any more.
    Over,
}

/// Whether an interface has carrier, and how far it asked for its kept lease of DHCPv6.
#[derive(Clone, Copy, PartialEq, Eq)]
pub struct Kept6 {
    pub up: bool,
    pub asked: Asked6,
}

/// A DHCPv6 message of an interface, by its kind and its transaction id (RFC 8415, section 8).
#[derive(Clone, Copy, PartialEq, Eq)]
pub struct Spoken6 {
    pub kind: Kind6,
    pub xid: u32,
}
