//! What the client is given in a turn: the time, a random word, the interfaces whose frames were refused, and what
//! came.

use net_types::Ip6;

/// What a turn brings beside the passing of time.
#[derive(Clone, Copy)]
pub enum TurnInput<'a> {
    /// A frame came in on an interface.
    Frame { iface: u32, bytes: &'a [u8] },
    /// The carrier of an interface came or went.
    Carrier { iface: u32, up: bool },
    /// The host found another node with this address.
    Duplicate { iface: u32, addr: Ip6 },
    /// The leases of an interface are to be given back.
    Release { iface: u32 },
    /// The leases of an interface are to be confirmed with any server.
    Rebind { iface: u32 },
    /// The daemon is to end.
    Stop,
    Quiet,
}

/// One turn of the client.
#[derive(Clone, Copy)]
pub struct Turn<'a> {
    /// Milliseconds since 1970, never less than in the turn before.
    pub at: u64,
    /// A random word.
    pub salt: u64,
    /// Whose frames the link refused in the turn before: their bits are set, from the lowest for interface 1.
    pub unsent: u64,
    pub input: TurnInput<'a>,
}
