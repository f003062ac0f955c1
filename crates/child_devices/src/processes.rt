//! What a machine is asked about a child process, one call of the system at a time.

ghost use Rattle.std.specs.Prelude.{◌≡◌, ◌≢◌, ℕ, [], ◌∷◌, List, Option, option_map};
ghost use Rattle.system_calls.specs.Asking.{Does, failure_of};
ghost use Rattle.child_devices.specs.ChildCalls.{ChildCall, Started, Asked, Killed, Waited, Printed, start_of, printed};
ghost use Rattle.world.specs.HookCalls.{HooksTold};
ghost use Rattle.child_devices.specs.HookTellings.{Says, hook_noted};
ghost use Rattle.child_devices.specs.HostNotes.{noted};
ghost use Rattle.child_devices.specs.HostTables.{TablesHeld, Tells};

use std::io::ErrorKind;
use std::process::{Command, ExitStatus, Output};
use world::{HookJob, HostRow, Poll};

/// What the host's tables have to note. The last field tells whether the call was done.
#[derive(Clone, Copy)]
pub enum HostNote {
    Listed(bool),
    Added(HostRow, bool),
    Removed(HostRow, bool),
}

/// What hooks have to note: a start and whether it was done, what a poll said, a child abandoned.
#[derive(Clone, Copy)]
pub enum HookNote<'a> {
    Started(&'a HookJob, bool),
    Polled(Option<Poll>),
    Abandoned,
}

/// A child of this process, one at a time. Each method is one call of the system. A call that gave nothing says why.
pub trait Children {
    /// The calls so far with their answers, the last one first, where these are told.
    ghost calls: { Self → Option (List ChildCall) };

    /// What it holds of the host's tables behind the script of each path, where that is told.
    ghost tables: { Self → List ℕ → Option TablesHeld };

    /// What asking a child will say, and the calls of hooks so far, where these are told.
    ghost hooks: { Self → Option HooksTold };

    /// Starts a child. It reads nothing, and what it prints is dropped.
    fn start(&mut self, call: &mut Command) -> Result<(), ErrorKind>
        ensures told { Does (Started (start_of call.old) (failure_of result) ∷ []) (calls self.old) (calls self.new) }
        ensures tables { Tells (Started (start_of call.old) (failure_of result)) (tables self.old) (tables self.new) }
        ensures hooks { hooks self.new ≡ hooks self.old };

    /// How the child ended; `None` while it runs. One that has ended is forgotten.
    fn ask(&mut self) -> Result<Option<ExitStatus>, ErrorKind>
        ensures told { Does (Asked result ∷ []) (calls self.old) (calls self.new) }
        ensures tables { Tells (Asked result) (tables self.old) (tables self.new) }
        ensures hooks { Says result (hooks self.old) (hooks self.new) };

    /// Ends the child, whatever it does.
    fn kill(&mut self) -> Result<(), ErrorKind>
        ensures told { Does (Killed (failure_of result) ∷ []) (calls self.old) (calls self.new) }
        ensures tables { Tells (Killed (failure_of result)) (tables self.old) (tables self.new) }
        ensures hooks { hooks self.new ≡ hooks self.old };

    /// Waits until the child has ended, and forgets it.
    fn wait(&mut self) -> Result<ExitStatus, ErrorKind>
        ensures told { Does (Waited result ∷ []) (calls self.old) (calls self.new) }
        ensures tables { Tells (Waited result) (tables self.old) (tables self.new) }
        ensures hooks { hooks self.new ≡ hooks self.old };

    /// Starts a child that reads nothing, and waits for its end and for all that it prints.
    fn print(&mut self, call: &mut Command) -> Result<Output, ErrorKind>
        ensures told { Does (Printed (start_of call.old) (printed result) ∷ []) (calls self.old) (calls self.new) }
        ensures tables { Tells (Printed (start_of call.old) (printed result)) (tables self.old) (tables self.new) }
        ensures hooks { hooks self.new ≡ hooks self.old };

    /// Notes a call of the host's tables behind the script with this path. Nothing is asked of the system.
    fn note_host(&mut self, script: &str, call: HostNote)
        ensures told { calls self.new ≡ calls self.old }
        ensures tables { tables self.new script.now ≡ option_map (noted call) (tables self.old script.now) }
        ensures others { (other : List ℕ) → other ≢ script.now → tables self.new other ≡ tables self.old other }
        ensures hooks { hooks self.new ≡ hooks self.old };

    /// Notes a call of hooks. Nothing is asked of the system.
    fn note_hook(&mut self, call: HookNote<'_>)
        ensures told { calls self.new ≡ calls self.old }
        ensures tables { tables self.new ≡ tables self.old }
        ensures hooks { hooks self.new ≡ option_map (hook_noted call.entry) (hooks self.old) };
}
