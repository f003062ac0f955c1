//! The states of a client, and what a step from one to another says.

use crate::moments::Backoff;
use crate::setup::Site4;
use arp_acd::{Acd, ArpSay};
use lease_text::Terms4;
use net_types::Ip4;
use udp_frame::Ends4;
use v4_message::Said4;

/// An exchange in which an address is asked for (RFC 2131, section 3.1).
#[derive(Clone, Copy, PartialEq, Eq)]
pub struct Exchange4 {
    /// Its transaction id.
    pub xid: u32,
    /// The address that is asked for.
    pub address: Ip4,
    /// The server whose offer is taken, where it is one.
    pub server: Option<Ip4>,
    /// The moment of its first REQUEST.
    pub first: u64,
}

/// How the exchange of a lease began.
#[derive(Clone, Copy, PartialEq, Eq)]
pub enum Origin4 {
    /// By the offer of a server.
    Offered,
    /// By asking for the kept lease again.
    Rebooted,
}

/// Where a client stands (RFC 2131, section 4.4). Moments are in milliseconds since 1970; at `due` the message of the
/// state is said, or said again.
#[derive(Clone, Copy, PartialEq, Eq)]
pub enum State4 {
    /// Nothing is done: there is no carrier, or the client was stopped.
    Off,
    /// The first DISCOVER waits.
    Init {
        due: u64,
    },
    /// An offer is waited for. The first DISCOVER went out at `began`, the last one so many `secs` later.
    Selecting {
        xid: u32,
        began: u64,
        secs: u16,
        backoff: Backoff,
        due: u64,
    },
    /// The offered address is asked for.
    Requesting {
        exchange: Exchange4,
        secs: u16,
        backoff: Backoff,
        due: u64,
    },
    /// The address of the kept lease is asked for, until `end`. `stands` are the terms of the kept lease where it is
    /// held meanwhile.
    Rebooting {
        exchange: Exchange4,
        backoff: Backoff,
        end: u64,
        due: u64,
        stands: Option<Terms4>,
    },
    /// The granted address is probed. `stands` are the terms of the kept lease where that is held still.
    Checking {
        xid: u32,
        terms: Terms4,
        origin: Origin4,
        acd: Acd,
        stands: Option<Terms4>,
    },
    /// After a NAK or a DECLINE: the next DISCOVER waits.
    Waiting {
        due: u64,
    },
    /// The lease is held. `xid` is that of the exchange that granted it, and `acd` defends the address.
    Bound {
        xid: u32,
        terms: Terms4,
        acd: Option<Acd>,
    },
    /// The lease is held, and its server is asked to renew it.
    Renewing {
        exchange: Exchange4,
        terms: Terms4,
        acd: Option<Acd>,
        due: u64,
    },
    /// The lease is held, and any server is asked to renew it.
    Rebinding {
        exchange: Exchange4,
        terms: Terms4,
        acd: Option<Acd>,
        due: u64,
    },
}

/// What has become of the lease.
#[derive(Clone, Copy, Debug, PartialEq, Eq)]
pub enum News4 {
    Nothing,
    /// A lease is held.
    Bound,
    /// The kept lease is held again.
    Reboot,
    /// The lease was renewed by its server.
    Renew,
    /// It was renewed by some server.
    Rebind,
    /// A server refused the address.
    Nak,
    /// The lease ended, or its address was given up.
    Expire,
    /// The lease isn't held any more, since the client stops.
    Stop,
}

/// To whom a message goes.
#[derive(Clone, Copy, PartialEq, Eq)]
pub enum To4 {
    Everyone,
    /// The server of the lease.
    Server,
}

/// A message that is to be sent.
#[derive(Clone, Copy, PartialEq, Eq)]
pub struct Say4 {
    pub said: Said4,
    pub to: To4,
    pub ends: Ends4,
}

/// What a message says to a client in its state.
#[derive(Clone, Copy, PartialEq, Eq)]
pub enum Answer4 {
    /// Nothing: it isn't acceptable there.
    Nothing,
    /// An offer of an address by a server.
    Offer { address: Ip4, server: Ip4 },
    /// A lease on these terms is granted.
    Ack(Terms4),
    /// The address is refused.
    Nak,
}

/// What becomes of the kept lease.
#[derive(Clone, Copy, PartialEq, Eq)]
pub enum Keep4 {
    /// It stays as it is.
    Stays,
    /// There is none any more.
    Clears,
    /// It is the one on these terms, with the values that came with it.
    Takes(Terms4),
}

/// A step of the table: where the client stands after it, the transaction id of its last exchange, what becomes of the
/// kept lease, and what is said.
#[derive(Clone, Copy, PartialEq, Eq)]
pub struct Step4 {
    pub state: State4,
    pub last: Option<u32>,
    pub keep: Keep4,
    pub say: Option<Say4>,
    pub arp: Option<ArpSay>,
    pub news: News4,
    /// Whether the client can't stand on the lease any more with which it was made.
    pub spends: bool,
}

/// Whether the server is told that a lease isn't used any more.
#[derive(Clone, Copy, PartialEq, Eq)]
pub enum Tell {
    /// By a RELEASE, and the lease isn't kept.
    Server,
    /// By nothing, and the lease stays kept.
    Nobody,
}

/// Whether the interface has a carrier.
#[derive(Clone, Copy, PartialEq, Eq)]
pub enum Carrier {
    Up,
    Down,
}

/// What a row of the table looks at beside the state: the settings, the transaction id of the last exchange, the
/// moment, and the salt of the turn.
#[derive(Clone, Copy, PartialEq, Eq)]
pub struct Turn4 {
    pub site: Site4,
    pub last: Option<u32>,
    pub at: u64,
    pub salt: u64,
}
