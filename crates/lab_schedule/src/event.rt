//! What can happen in a lab, one event at a time: to its clients, or to the peer that they talk with.

use net_types::IfIndex;

/// What comes next in a lab. Moments are in milliseconds since 1970; a salt is the random word of a turn.
#[derive(Clone, Copy, Debug, PartialEq, Eq)]
pub enum LabEvent {
    /// The clients have a turn in which nothing comes.
    Tick {
        at: u64,
        salt: u64,
    },
    /// The carrier of an interface comes or goes.
    Carrier {
        at: u64,
        salt: u64,
        iface: IfIndex,
        up: bool,
    },
    /// The leases of an interface are to be given back.
    Release {
        at: u64,
        salt: u64,
        iface: IfIndex,
    },
    /// The peer's frame of this number comes in on an interface.
    Give {
        at: u64,
        salt: u64,
        iface: IfIndex,
        frame: u64,
    },
    /// The peer hears the clients' frame of this number. The clients have no turn.
    Hear {
        at: u64,
        frame: u64,
    },
}
