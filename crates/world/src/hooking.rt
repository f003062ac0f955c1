//! Hook scripts as the daemon sees them: what each run is given, and the device that runs them one at a time.

ghost use Rattle.std.specs.Prelude.{◌≡◌, ◌≤◌, ◌++◌, ℕ, Bool, true, false, Option, List, map, IfOk, OnOk};
ghost use Rattle.world.specs.Causes.{HasCause, HasDeviceCause, Foretold};
ghost use Rattle.world.specs.HookCalls.{variable_of};

use crate::faults::DeviceAnswer;
use crate::reasons::Reason;
use net_types::{Failed, IfIndex};
use std::alloc::{AllocError, Global};

/// A variable of a hook's environment.
#[derive(Drop)]
pub struct HookVar {
    pub name: String,
    pub value: String,
}

fn copied(alloc: Global, variable: &HookVar) -> Result<HookVar, AllocError>
    ensures { IfOk result (λ copy. variable_of copy ≡ variable_of variable.now) }
{
    let name = String::from_str(alloc, &variable.name)?;
    let value = String::from_str(alloc, &variable.value)?;
    Ok(HookVar { name, value })
}

/// Appends a copy of each of these variables. Where memory runs out, some of them may stand there already.
pub fn add_variables(into: &mut Vec<HookVar>, variables: &[HookVar]) -> Result<(), AllocError>
    ensures { OnOk result
        (map variable_of into.new.items ≡ map variable_of into.old.items ++ map variable_of variables.now) }
{
    let alloc = *into.allocator();
    for variable in variables {
        into.push(copied(alloc, variable)?)?;
    }
    Ok(())
}

/// One run of a hook script.
#[derive(Drop)]
pub struct HookJob {
    /// From 1 in each life; 0 before the job has its number.
    pub number: u64,
    pub reason: Reason,
    pub iface: IfIndex,
    /// The path of the script; empty for the device's own.
    pub script: String,
    pub vars: Vec<HookVar>,
}

/// What a poll of the running child says.
#[derive(Clone, Copy, Debug, PartialEq, Eq)]
pub enum Poll {
    Running,
    /// It ended with this status.
    Ended(u32),
}

/// Runs hook scripts, at most one at a time.
pub trait Hooks {
    ghost use Rattle.world.specs.HookCalls.{HooksTold, job_of, start_number, StartsJob, RunsIfDone, RunsOn, AnswersPoll, Abandons};

    /// How many calls failed.
    ghost faults: { Self → ℕ };

    /// Whether a child runs.
    ghost running: { Self → Bool };

    /// What was asked and what will be answered, where that is told.
    ghost told: { Self → Option HooksTold };

    /// The numbers of the starts that fail, where these are told.
    ghost failing: { Self → Option (List ℕ) };

    /// Starts a job where none runs. A start that failed leaves none running.
    fn start(&mut self, job: &HookJob) -> Result<(), DeviceAnswer>
        requires { running self.old ≡ false }
        ensures cause { HasDeviceCause (faults self.old) (faults self.new) result }
        ensures runs { RunsIfDone (running self.new) result }
        ensures told { StartsJob (job_of job.now) (told self.old) (told self.new) result }
        ensures foretold { Foretold (failing self.old) (start_number (told self.old)) result }
        ensures failing { failing self.new ≡ failing self.old };

    /// Asks whether the child still runs. A poll that failed counts as `Running`.
    fn poll(&mut self) -> Result<Poll, Failed>
        requires { running self.old ≡ true }
        ensures cause { HasCause (faults self.old) (faults self.new) result }
        ensures runs { RunsOn (running self.new) result }
        ensures told { AnswersPoll (told self.old) (told self.new) result }
        ensures failing { failing self.new ≡ failing self.old };

    /// Forgets the child, if one runs.
    fn abandon(&mut self)
        ensures cause { faults self.old ≤ faults self.new }
        ensures runs { running self.new ≡ false }
        ensures told { Abandons (running self.old) (told self.old) (told self.new) }
        ensures failing { failing self.new ≡ failing self.old };
}
