//! What starts a life of the daemon and what wakes it afterwards, each with its moment and a random word.

use net_types::Ip6;

/// How a life of the daemon begins.
#[derive(Clone, Copy, PartialEq, Eq)]
pub struct Begin {
    /// The opening moment, in milliseconds since 1970.
    pub at: u64,
    /// A random word.
    pub salt: u64,
    /// The interfaces with carrier: bit `i - 1` is interface `i`.
    pub up: u64,
}

/// What woke the daemon.
#[derive(Clone, Copy, Debug, PartialEq, Eq)]
pub enum Event {
    /// A frame came in on an interface, so many bytes long.
    Frame { iface: u32, len: usize },
    /// The carrier of an interface came or went.
    Carrier { iface: u32, up: bool },
    /// The host found another node with this address.
    Duplicate { iface: u32, addr: Ip6 },
    /// The leases of an interface are to be given back.
    Release { iface: u32 },
    /// The leases of an interface are to be confirmed with any server.
    Rebind { iface: u32 },
    /// The daemon is to end.
    Stop,
    /// Nothing but the passing of time.
    Quiet,
    /// Nothing more comes.
    End,
}

/// A moment at which the daemon goes on, and why.
#[derive(Clone, Copy, PartialEq, Eq)]
pub struct Wake {
    /// Milliseconds since 1970.
    pub at: u64,
    /// A random word.
    pub salt: u64,
    pub event: Event,
}
