//! Records of the calls on child processes, and of what the host's tables and hooks note. They exist only in clauses.

ghost use Rattle.std.specs.Prelude.{◌≡◌, List, [], ◌∷◌};
ghost use Rattle.std.specs.Borrow.{ftrue};
ghost use Rattle.world.specs.HostCalls.{HostCall};
ghost use Rattle.world.specs.HookCalls.{HookCall};
ghost use Rattle.std.specs.Coded.{codes};
ghost use Rattle.telling_machines.specs.CommandCode.{command_code};
ghost use Rattle.telling_machines.specs.ChildNotes.{ChildNote};

use child_devices::{HookNote, HostNote};
use std::io::ErrorKind;
use std::marker::Model;
use std::process::{Command, ExitStatus};

/// A call of the system that was answered. A script printed nothing.
#[derive(Clone, Copy)]
pub(crate) enum ChildEntry<'a> {
    Started(&'a Command, Option<ErrorKind>),
    Asked(Result<Option<ExitStatus>, ErrorKind>),
    Killed(Option<ErrorKind>),
    Waited(Result<ExitStatus, ErrorKind>),
    Printed(&'a Command, Result<ExitStatus, ErrorKind>),
}

/// The calls of the system so far, the last one first.
#[derive(Drop)]
pub(crate) struct ChildRecord {
    pub(crate) ghost made: { List ChildNote } by { Prim.hlevel (codes, command_code) },
}

impl Model for ChildRecord {
    ghost also_owns = { λ _. ftrue };
}

impl ChildRecord {
    ghost use Rattle.telling_machines.specs.ChildEntries.{note_of};

    pub(crate) fn new() -> ChildRecord
        ensures { result.made ≡ [] }
    {
        ChildRecord {}
    }

    /// The record with one more call.
    pub(crate) fn with(_before: &ChildRecord, _entry: &ChildEntry<'_>) -> ChildRecord
        ensures { result.made ≡ note_of _entry.now ∷ _before.now.made }
    {
        ChildRecord {}
    }
}

/// What the host's tables, which hold no row, noted so far.
#[derive(Drop)]
pub(crate) struct HostRecord {
    pub(crate) ghost noted: { List HostCall },
}

impl Model for HostRecord {
    ghost also_owns = { λ _. ftrue };
}

impl HostRecord {
    ghost use Rattle.std.specs.Prelude.{◌++◌};
    ghost use Rattle.child_devices.specs.HostNotes.{call_noted};

    pub(crate) fn new() -> HostRecord
        ensures { result.noted ≡ [] }
    {
        HostRecord {}
    }

    /// The record with one more note.
    pub(crate) fn with(_before: &HostRecord, _note: &HostNote) -> HostRecord
        ensures { result.noted ≡ _before.now.noted ++ call_noted _note.now [] ∷ [] }
    {
        HostRecord {}
    }
}

/// What hooks noted so far.
#[derive(Drop)]
pub(crate) struct HookRecord {
    pub(crate) ghost noted: { List HookCall },
}

impl Model for HookRecord {
    ghost also_owns = { λ _. ftrue };
}

impl HookRecord {
    ghost use Rattle.telling_machines.specs.HookEntries.{hooks_with};

    pub(crate) fn new() -> HookRecord
        ensures { result.noted ≡ [] }
    {
        HookRecord {}
    }

    /// The record with one more note.
    pub(crate) fn with(_before: &HookRecord, _note: &HookNote<'_>) -> HookRecord
        ensures { result.noted ≡ hooks_with _note.now _before.now.noted }
    {
        HookRecord {}
    }
}
