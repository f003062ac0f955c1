//! Child processes in memory: a script whose tables hold no row and take none, and hooks that succeed. The calls are
//! told.

ghost use Rattle.std.specs.Prelude.{◌≡◌, ◌+◌, ◌-◌, true, false, [], ◌∷◌, Some, None, is_some, not, ◌&&◌, IfOk, OnOk, OnErr};
ghost use Rattle.std.specs.String.{string_bytes};
ghost use Rattle.std.specs.Process.{command_args};
ghost use Rattle.telling_machines.specs.ChildTables.{is_change, IsHarmless};
ghost use Rattle.telling_machines.specs.ChildEntries.{note_of};

use crate::child_records::{ChildEntry, ChildRecord, HookRecord, HostRecord};
use child_devices::{Children, HookNote, HostNote};
use std::alloc::Global;
use std::io::ErrorKind;
use std::marker::Model;
use std::process::{Command, ExitStatus, Output};
use std::snapshot::Snapshot;

/// Whether a script is to change a row.
fn is_change(call: &Command) -> bool
    ensures { result ≡ is_change (command_args call.now) }
{
    match call.get_args().next() {
        Some(word) => word == "host-add" || word == "host-del",
        None => false,
    }
}

/// The child, and what is told of it.
#[derive(Drop)]
pub struct MemChildren {
    alloc: Global,
    script: String,
    /// Whether no child was run beside another.
    alone: bool,
    running: Option<Snapshot<Command>>,
    /// How many askings say that a child runs.
    runs: u64,
    made: ChildRecord,
    host: HostRecord,
    hook: HookRecord,
}

impl Model for MemChildren {
    ghost use Rattle.std.specs.Prelude.{◌≡◌, false, IfSome, option_map};
    ghost use Rattle.std.specs.String.{string_bytes};
    ghost use Rattle.std.specs.Process.{command_args};
    ghost use Rattle.telling_machines.specs.ChildTables.{ChildrenState, is_change};
    ghost use Rattle.std.specs.Coded.{codes};
    ghost use Rattle.telling_machines.specs.CommandCode.{command_code};

    ghost Value = { ChildrenState };

    ghost coded = { Prim.hlevel (codes, command_code) };

    ghost view = { λ children. record {
      made = children.made.made;
      script = string_bytes children.script;
      alone = children.alone;
      running = option_map (λ child. child.value) children.running;
      host = children.host.noted;
      runs = children.runs;
      hook = children.hook.noted;
    } };

    ghost invariant = { λ children.
        IfSome children.running (λ child. is_change (command_args child.value) ≡ false) };
}

impl MemChildren {
    /// Children of which so many askings say that one runs, and the next ones that it ended. The tables behind this script
    /// are told.
    pub fn new(alloc: Global, script: String, runs: u64) -> MemChildren
        ensures { result
            ≡ record {
              made = [];
              script = string_bytes script;
              alone = true;
              running = None;
              host = [];
              runs = runs;
              hook = [];
            } }
    {
        MemChildren {
            alloc,
            script,
            alone: true,
            running: None,
            runs,
            made: ChildRecord::new(),
            host: HostRecord::new(),
            hook: HookRecord::new(),
        }
    }

    /// Tells a call of the system.
    fn tell(&mut self, entry: ChildEntry<'_>)
        ensures { self.new ≡ record self.old { made = note_of entry.entry ∷ self.old.made } }
    {
        self.made = ChildRecord::with(&self.made, &entry);
    }

    /// A child is run now, beside another or not.
    fn run_one(&mut self)
        ensures { self.new ≡ record self.old { alone = self.old.alone && not (is_some self.old.running) } }
    {
        self.alone = self.alone && self.running.is_none();
    }

    /// A child runs from now on.
    fn begin(&mut self, call: &Command)
        requires { is_change (command_args call.now) ≡ false }
        ensures { self.new ≡ record self.old { running = Some call.now } }
    {
        self.running = Some(Snapshot::of(call));
    }

    /// No child runs from now on.
    fn end(&mut self)
        ensures { self.new ≡ record self.old { running = None } }
    {
        self.running = None;
    }

    /// The next asking is answered: whether the child runs.
    fn next_runs(&mut self) -> bool
        ensures runs { result ≡ true → self.old.runs ≡ self.new.runs + 1 }
        ensures ends { result ≡ false → self.old.runs ≡ 0 }
        ensures kept { self.new ≡ record self.old { runs = self.old.runs - 1 } }
        ensures harmless { IsHarmless self.old.running }
    {
        match self.runs.checked_sub(1) {
            Some(runs) => {
                self.runs = runs;
                true
            }
            None => false,
        }
    }
}

impl Children for MemChildren {
    ghost use Rattle.std.specs.Prelude.{map};
    ghost use Rattle.telling_machines.specs.ChildNotes.{call_of};
    ghost use Rattle.telling_machines.specs.ChildTables.{tables_at, hooks_told};

    ghost calls = { λ children. Some (map call_of children.made) };

    ghost tables = { tables_at };

    ghost hooks = { λ children. Some (hooks_told children) };

    /// A script that is to change a row isn't run.
    fn start(&mut self, call: &mut Command) -> Result<(), ErrorKind> {
        if is_change(call) {
            self.tell(ChildEntry::Started(call, Some(ErrorKind::PermissionDenied)));
            return Err(ErrorKind::PermissionDenied);
        }
        self.run_one();
        self.begin(call);
        self.tell(ChildEntry::Started(call, None));
        Ok(())
    }

    fn ask(&mut self) -> Result<Option<ExitStatus>, ErrorKind> {
        if self.next_runs() {
            self.tell(ChildEntry::Asked(Ok(None)));
            return Ok(None);
        }
        let status = ExitStatus::default();
        self.end();
        self.tell(ChildEntry::Asked(Ok(Some(status))));
        Ok(Some(status))
    }

    fn kill(&mut self) -> Result<(), ErrorKind> {
        if self.running.is_none() {
            self.tell(ChildEntry::Killed(Some(ErrorKind::NotFound)));
            return Err(ErrorKind::NotFound);
        }
        self.tell(ChildEntry::Killed(None));
        Ok(())
    }

    fn wait(&mut self) -> Result<ExitStatus, ErrorKind> {
        if self.running.is_none() {
            self.tell(ChildEntry::Waited(Err(ErrorKind::NotFound)));
            return Err(ErrorKind::NotFound);
        }
        let status = ExitStatus::default();
        self.end();
        self.tell(ChildEntry::Waited(Ok(status)));
        Ok(status)
    }

    /// A listing is empty, and so is what any other script prints. One that is to change a row isn't run.
    fn print(&mut self, call: &mut Command) -> Result<Output, ErrorKind> {
        self.run_one();
        if is_change(call) {
            self.tell(ChildEntry::Printed(call, Err(ErrorKind::PermissionDenied)));
            return Err(ErrorKind::PermissionDenied);
        }
        let status = ExitStatus::default();
        self.tell(ChildEntry::Printed(call, Ok(status)));
        Ok(Output {
            status,
            stdout: Vec::new(self.alloc),
            stderr: Vec::new(self.alloc),
        })
    }

    /// The tables behind other scripts aren't told.
    fn note_host(&mut self, script: &str, call: HostNote) {
        if script == self.script.as_str() {
            self.host = HostRecord::with(&self.host, &call);
        }
    }

    fn note_hook(&mut self, call: HookNote<'_>) {
        self.hook = HookRecord::with(&self.hook, &call);
    }
}
