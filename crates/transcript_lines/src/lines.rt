//! What a line says.
use net_types::{IfIndex, IfSpec, Net};
use world::{Begin, Event, HostRow, Poll, Reason};

/// What reading a file of the store gave.
#[derive(Drop)]
pub enum FileReading {
    /// Its bytes.
    Found(Vec<u8>),
    /// There is no such file.
    Missing,
    /// It couldn't be read.
    Unread,
}

/// One line. `done` tells whether what the line names was done.
#[derive(Drop)]
pub enum ToldLine<'a> {
    Interface(IfSpec),
    /// A life begins, counted from 1.
    Life(u64),
    Start(Begin),
    /// The names of asides that the store listed, each after a blank.
    Asides(&'a [u8]),
    AsidesFailed,
    /// The aside of a file was written, with all its bytes.
    Wrote {
        name: &'a [u8],
        bytes: Vec<u8>,
        done: bool,
    },
    /// The aside of a file was brought to rest.
    Synced {
        name: &'a [u8],
        done: bool,
    },
    /// The aside of a file was put in its place.
    Renamed {
        name: &'a [u8],
        done: bool,
    },
    Removed {
        name: &'a [u8],
        done: bool,
    },
    Settled {
        done: bool,
    },
    Read {
        name: &'a [u8],
        reading: FileReading,
    },
    /// A wake at its raised moment, in milliseconds since 1970; the bytes are those of a frame.
    Turn {
        at: u64,
        salt: u64,
        event: Event,
        bytes: Vec<u8>,
    },
    /// What a poll of the child of a hook job said; nothing where the poll failed.
    HookPolled {
        number: u64,
        answer: Option<Poll>,
    },
    /// The child of a hook job is waited for no longer.
    HookAbandoned(u64),
    /// A hook job was dropped before it was started; the name is that of its interface.
    HookDropped {
        number: u64,
        reason: Reason,
        name: &'a [u8],
    },
    /// A hook job was started; the name is that of its interface. Its variables follow.
    HookStarted {
        number: u64,
        reason: Reason,
        name: &'a [u8],
        done: bool,
    },
    /// A variable of the hook job that was started.
    Variable {
        name: &'a [u8],
        value: &'a [u8],
    },
    /// A frame offered to the link, and whether it was taken.
    Send {
        iface: IfIndex,
        bytes: Vec<u8>,
        taken: bool,
    },
    /// How many rows the host listed.
    HostListed {
        count: u64,
    },
    Row(HostRow),
    HostListFailed,
    HostDel {
        row: HostRow,
        done: bool,
    },
    HostAdd {
        row: HostRow,
        done: bool,
    },
    /// Until when the next wait may last, in milliseconds since 1970.
    Until(Option<u64>),
    /// An address that the life leaves on an interface.
    Hold {
        iface: IfIndex,
        net: Net,
    },
    /// The last line of a life.
    EndOfLife,
}
