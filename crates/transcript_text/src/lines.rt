//! What a transcript is made of.
use net_types::{IfIndex, IfSpec, Net};
use world::{Begin, Event, HostRow, Poll, Reason};

/// What reading a file of the store gave.
#[derive(Clone, Copy)]
pub enum Reading<'a> {
    /// Its bytes.
    Found(&'a [u8]),
    /// There is no such file.
    Missing,
    /// It couldn't be read.
    Unread,
}

/// One line of a transcript. `done` tells whether what the line names was done.
#[derive(Clone, Copy)]
pub enum TranscriptLine<'a> {
    /// The first line.
    Head,
    /// A line of the configuration, without its line feed.
    Conf(&'a [u8]),
    /// A line of the configuration, from 1, has a word that does nothing.
    Notice {
        line: u32,
        word: &'a str,
    },
    Interface(IfSpec),
    /// A life begins, counted from 1.
    Life(u64),
    Start(Begin),
    /// The names of asides that the store listed.
    Asides(&'a [String]),
    AsidesFailed,
    /// The aside of a file was written, with all its bytes.
    Wrote {
        name: &'a str,
        bytes: &'a [u8],
        done: bool,
    },
    /// The aside of a file was brought to rest.
    Synced {
        name: &'a str,
        done: bool,
    },
    /// The aside of a file was put in its place.
    Renamed {
        name: &'a str,
        done: bool,
    },
    Removed {
        name: &'a str,
        done: bool,
    },
    Settled {
        done: bool,
    },
    Read {
        name: &'a str,
        reading: Reading<'a>,
    },
    /// A wake at its raised moment, in milliseconds since 1970; the bytes are those of a frame.
    Turn {
        at: u64,
        salt: u64,
        event: Event,
        bytes: &'a [u8],
    },
    /// What a poll of the child of a hook job said; nothing where the poll failed.
    HookPolled {
        number: u64,
        answer: Option<Poll>,
    },
    /// The child of a hook job is waited for no longer.
    HookAbandoned(u64),
    /// A hook job was dropped before it was started; the name is that of its interface.
    HookDropped {
        number: u64,
        reason: Reason,
        name: &'a str,
    },
    /// A hook job was started; the name is that of its interface. Its variables follow.
    HookStarted {
        number: u64,
        reason: Reason,
        name: &'a str,
        done: bool,
    },
    /// A variable of the hook job that was started.
    Variable {
        name: &'a str,
        value: &'a str,
    },
    /// A frame offered to the link, and whether it was taken.
    Send {
        iface: IfIndex,
        bytes: &'a [u8],
        taken: bool,
    },
    /// How many rows the host listed.
    HostListed {
        count: u64,
    },
    Row(&'a HostRow),
    HostListFailed,
    HostDel {
        row: &'a HostRow,
        done: bool,
    },
    HostAdd {
        row: &'a HostRow,
        done: bool,
    },
    /// Until when the next wait may last, in milliseconds since 1970.
    Until(Option<u64>),
    /// An address that the life leaves on an interface.
    Hold {
        iface: IfIndex,
        net: Net,
    },
    /// The last line of a life.
    EndOfLife,
}
