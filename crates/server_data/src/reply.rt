//! What a server says.

use net_types::{Ip4, Mac};

/// The messages that a server says to a client that asks for an address (RFC 2131, section 3.1).
#[derive(Clone, Copy, PartialEq, Eq)]
pub enum ReplyKind {
    /// An address is offered.
    Offer,
    /// An address is granted.
    Ack,
    /// An address is refused.
    Nak,
}

/// A message of a server.
#[derive(Clone, Copy, PartialEq, Eq)]
pub struct Reply {
    pub kind: ReplyKind,
    /// The hardware address of the client.
    pub chaddr: Mac,
    /// The number of the exchange, which the client chose.
    pub xid: u32,
    /// The address that the client gets. A NAK gives none.
    pub yiaddr: Ip4,
    /// Option 54: the server that speaks.
    pub server: Ip4,
    /// Option 51: how long the lease lasts, in seconds. A NAK has none.
    pub lease: u32,
}
