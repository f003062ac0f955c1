//! Records of the calls on a socket and on clocks, and of what a link notes. They exist only in clauses.

ghost use Rattle.std.specs.Prelude.{◌≡◌, List, [], ◌∷◌};
ghost use Rattle.std.specs.Borrow.{ftrue};
ghost use Rattle.world.specs.LinkCalls.{LinkCall};
ghost use Rattle.loop_link.specs.WireCalls.{WireCall};

use loop_link::LinkNote;
use std::io::ErrorKind;
use std::marker::Model;
use std::net::SocketAddr;
use std::time::{Instant, SystemTime};

/// A call of the system that was answered.
#[derive(Clone, Copy)]
pub(crate) enum WireEntry<'a> {
    Bound(u16, Option<ErrorKind>),
    Limited(u64, Option<ErrorKind>),
    Received(Result<(&'a [u8], SocketAddr), ErrorKind>),
    Sent(&'a [u8], u16, Option<ErrorKind>),
    WallRead(Result<SystemTime, ErrorKind>),
    SteadyRead(Result<Instant, ErrorKind>),
}

/// The calls of the system so far, the last one first.
#[derive(Drop)]
pub(crate) struct WireRecord {
    pub(crate) ghost calls: { List WireCall },
}

impl Model for WireRecord {
    ghost also_owns = { λ _. ftrue };
}

impl WireRecord {
    ghost use Rattle.telling_machines.specs.WireEntries.{call_of};

    pub(crate) fn new() -> WireRecord
        ensures { result.calls ≡ [] }
    {
        WireRecord {}
    }

    /// The record with one more call.
    pub(crate) fn with(_before: &WireRecord, _entry: &WireEntry<'_>) -> WireRecord
        ensures { result.calls ≡ call_of _entry.now ∷ _before.now.calls }
    {
        WireRecord {}
    }
}

/// What a link noted so far.
#[derive(Drop)]
pub(crate) struct LinkRecord {
    pub(crate) ghost noted: { List LinkCall },
}

impl Model for LinkRecord {
    ghost also_owns = { λ _. ftrue };
}

impl LinkRecord {
    ghost use Rattle.loop_link.specs.LinkNotes.{noted};

    pub(crate) fn new() -> LinkRecord
        ensures { result.noted ≡ [] }
    {
        LinkRecord {}
    }

    /// The record with one more note.
    pub(crate) fn with(_before: &LinkRecord, _note: &LinkNote<'_>) -> LinkRecord
        ensures { result.noted ≡ noted _note.now _before.now.noted }
    {
        LinkRecord {}
    }
}
