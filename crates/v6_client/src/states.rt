//! The states of a client, and what a step from one to another says.

use crate::exchange::Exchange6;
use v6_message::Kind6;

/// Where a client stands (RFC 8415, section 18.2). Moments are in milliseconds since 1970.
#[derive(Clone, Copy, PartialEq, Eq)]
pub enum State6 {
    /// Nothing is done: there is no carrier, or the client was stopped.
    Off,
    /// The first SOLICIT waits until `due`.
    Waiting {
        due: u64,
    },
    /// Servers are looked for. `offer` is the preference of the Advertise that is kept.
    Soliciting {
        exchange: Exchange6,
        offer: Option<u8>,
    },
    /// A server is asked for what it advertised.
    Requesting {
        exchange: Exchange6,
    },
    /// Items are held.
    Bound,
    /// Items are held, and their server is asked to extend them.
    Renewing {
        exchange: Exchange6,
    },
    /// Items are held, and any server is asked to extend them.
    Rebinding {
        exchange: Exchange6,
    },
    /// Any server is asked, until `end`, for the items of the kept lease that were valid at `since`. Where the client
    /// stands on the lease they are held.
    Restarting {
        exchange: Exchange6,
        end: u64,
        since: u64,
        stands: bool,
    },
    /// The server is told which addresses other hosts use; what is left is held.
    Declining {
        exchange: Exchange6,
    },
}

/// What has become of the items.
#[derive(Clone, Copy, Debug, PartialEq, Eq)]
pub enum News6 {
    Nothing,
    /// Items are held.
    Bound,
    /// Items of the kept lease are held again.
    Reboot,
    /// They were extended by their server.
    Renew,
    /// They were extended by some server.
    Rebind,
    /// The kept lease changed, and no other news tells it: its items are held from now on, some of them went, or it
    /// isn't kept any more.
    Changed,
    /// None is held any more.
    Expire,
    /// None is held any more, since the client stops.
    Stop,
}

/// A message that is to be sent, without the IAs that it names.
#[derive(Clone, Copy, PartialEq, Eq)]
pub struct Say6 {
    pub kind: Kind6,
    pub xid: u32,
    /// Hundredths of a second since the exchange began.
    pub elapsed: u16,
}

/// What a message that was judged says to a client in its state.
#[derive(Clone, Copy, PartialEq, Eq)]
pub enum Answer6 {
    /// Nothing: it isn't waited for there.
    Nothing,
    /// A server offers what is asked for.
    Offer { preference: u8 },
    /// A server grants items, which are held now.
    Grants,
    /// A server knows of the declined addresses, and items are left.
    Keeps,
    /// No item is left.
    Empties,
}

/// What becomes of the kept lease.
#[derive(Clone, Copy, PartialEq, Eq)]
pub enum Keep6 {
    /// It stays as it is.
    Stays,
    /// There is none any more.
    Clears,
    /// It is the one that the message grants.
    Takes,
}

/// A step of the table: where the client stands after it, the transaction id of its last exchange, what becomes of the
/// kept lease, and what is said.
#[derive(Clone, Copy, PartialEq, Eq)]
pub struct Step6 {
    pub state: State6,
    pub last: Option<u32>,
    pub keep: Keep6,
    pub say: Option<Say6>,
    pub news: News6,
    /// Whether the client can't stand any more on the lease that was read: it began, or was turned off.
    pub spends: bool,
}

/// Whether the server is told that its items aren't used any more.
#[derive(Clone, Copy, PartialEq, Eq)]
pub enum Tell6 {
    /// By a RELEASE, and the lease isn't kept.
    Server,
    /// By nothing, and the lease stays kept.
    Nobody,
}

/// Whether the interface has a carrier.
#[derive(Clone, Copy, PartialEq, Eq)]
pub enum Carrier6 {
    Up,
    Down,
}
