//! Hook scripts that run as child processes, one at a time, each with the variables of its job and no others.

ghost use Rattle.std.specs.Prelude.{◌≡◌, ◌≤◌, ◌+◌, true, false, map, IfOk, OnOk};
ghost use Rattle.std.specs.String.{string_bytes};
ghost use Rattle.world.specs.Causes.{HasCause, HasDeviceCause};
ghost use Rattle.world.specs.HookCalls.{variable_of, job_of, RunsIfDone, RunsOn, StartsJob, AnswersPoll, Abandons};
ghost use Rattle.child_devices.specs.ChildCalls.{script_run, shell_status, start_of, RunsJob, SaysAlso, Starts, Polls, Leaves};
ghost use Rattle.child_devices.specs.HookTellings.{hooks_told, Loses};
ghost use Rattle.std.specs.Process.{exit_code, exit_signal};

use crate::processes::{Children, HookNote};
use std::alloc::{AllocError, Global};
use std::io::ErrorKind;
use std::os::unix::process::ExitStatusExt;
use std::process::{Command, ExitStatus};
use system_calls::{Faults, reason};
use world::{DeviceAnswer, Failed, HookJob, HookVar, Hooks, NoMemory, Poll};

/// Hook scripts as children of this process, one at a time. What they are answered is told where the machine tells it.
#[derive(Drop)]
pub struct ChildHooks<C: Children + Drop> {
    alloc: Global,
    children: C,
    script: String,
    running: bool,
    faults: Faults,
    /// How many polls failed, up to 2^64 - 1. They are no part of `faults`, so that those which a machine foretells can
    /// be counted whatever else fails.
    lost: u64,
}

impl<C: Children + Drop> ChildHooks<C> {
    /// Hooks whose own script has this path. Nothing runs yet.
    pub fn new(alloc: Global, children: C, script: &str) -> Result<ChildHooks<C>, NoMemory>
        ensures script { IfOk result (λ hooks. string_bytes hooks.script ≡ script.now) }
        ensures idle { IfOk result (λ hooks. hooks.running ≡ false) }
        ensures children { IfOk result (λ hooks. hooks.children ≡ children) }
    {
        match String::from_str(alloc, script) {
            Ok(script) => Ok(ChildHooks {
                alloc,
                children,
                script,
                running: false,
                faults: Faults::none(),
                lost: 0,
            }),
            Err(_) => Err(NoMemory),
        }
    }

    /// Counts a poll that failed. Where there is no room for that the child counts as one that runs.
    fn lose(&mut self) -> Result<Poll, Failed>
        ensures loses { Loses self.old.lost self.new.lost result }
        ensures children { self.new.children ≡ self.old.children }
        ensures same { (self.new.script ≡ self.old.script) × (self.new.running ≡ self.old.running)
            × (self.new.faults ≡ self.old.faults) }
    {
        match self.lost.checked_add(1) {
            Some(lost) => {
                self.lost = lost;
                Err(Failed)
            }
            None => Ok(Poll::Running),
        }
    }
}

/// The script that a job runs: the hooks' own where it names none.
fn script_of<'a>(own: &'a str, named: &'a str) -> &'a str
    ensures { result.now ≡ script_run own.now named.now }
{
    if named.is_empty() { own } else { named }
}

/// Says one more variable of a call.
fn say(call: &mut Command, var: &HookVar) -> Result<(), AllocError>
    ensures { OnOk result (SaysAlso (variable_of var.now) (start_of call.old) (start_of call.new)) }
{
    call.env(&var.name, &var.value)?;
    Ok(())
}

/// The call of a script with these variables and no others.
#[tactic(auto, using(crate::proofs::ScriptCalls::job_begins, crate::proofs::ScriptCalls::job_goes_on))]
fn job_call(alloc: Global, script: &str, vars: &[HookVar]) -> Result<Command, AllocError>
    ensures { IfOk result (λ call. RunsJob script.now (map variable_of vars.now) (start_of call)) }
{
    let mut call = Command::new(alloc, script)?;
    call.env_clear();
    for var in vars {
        say(&mut call, var)?;
    }
    Ok(call)
}

/// What a shell adds to the number of the signal that ended a child.
const BY_SIGNAL: u32 = 128;

/// The status that a child ended with, as a shell tells it.
fn status_number(end: ExitStatus) -> u32
    ensures { result ≡ shell_status (exit_code end) (exit_signal end) }
{
    match (end.code(), end.signal()) {
        (Some(code), _) => code.unsigned_abs(),
        (None, Some(signal)) => BY_SIGNAL.saturating_add(signal.unsigned_abs()),
        (None, None) => BY_SIGNAL,
    }
}

/// Ends the child and waits for it. One that can't be ended isn't waited for.
fn end<C: Children>(children: &mut C) -> Result<(), ErrorKind>
    ensures asked { Leaves true (C.calls children.old) (C.calls children.new) }
    ensures hooks { C.hooks children.new ≡ C.hooks children.old }
{
    children.kill()?;
    children.wait()?;
    Ok(())
}

#[tactic(auto, using(system_calls::proofs::Causing::counted_cause, crate::proofs::ScriptCalls::job_started))]
impl<C: Children + Drop> Hooks for ChildHooks<C> {
    ghost use Rattle.std.specs.Prelude.{None};

    ghost faults = { λ hooks. hooks.faults.count + hooks.lost };

    ghost running = { λ hooks. hooks.running };

    ghost told = { λ hooks. hooks_told hooks.lost (C.hooks hooks.children) };

    ghost failing = { λ hooks. None };

    fn start(&mut self, job: &HookJob) -> Result<(), DeviceAnswer>
        requires { self.old.running ≡ false }
        ensures cause { HasDeviceCause (self.old.faults.count + self.old.lost) (self.new.faults.count + self.new.lost)
            result }
        ensures runs { RunsIfDone self.new.running result }
        ensures told { StartsJob (job_of job.now) (hooks_told self.old.lost (C.hooks self.old.children))
            (hooks_told self.new.lost (C.hooks self.new.children)) result }
        ensures script { self.new.script ≡ self.old.script }
        ensures asked { Starts (script_run (string_bytes self.old.script) (string_bytes job.now.script))
            (map variable_of job.now.vars.items) (C.calls self.old.children) (C.calls self.new.children) result }
    {
        self.faults.room()?;
        let script = script_of(&self.script, &job.script);
        let Ok(mut call) = job_call(self.alloc, script, &job.vars) else {
            return Err(DeviceAnswer::NoMemory);
        };
        match self.children.start(&mut call) {
            Ok(()) => {
                self.running = true;
                self.children.note_hook(HookNote::Started(job, true));
                Ok(())
            }
            Err(kind) => match reason(kind) {
                DeviceAnswer::Failed => {
                    self.children.note_hook(HookNote::Started(job, false));
                    Err(self.faults.counted(DeviceAnswer::Failed))
                }
                DeviceAnswer::NoMemory => Err(DeviceAnswer::NoMemory),
            },
        }
    }

    fn poll(&mut self) -> Result<Poll, Failed>
        requires { self.old.running ≡ true }
        ensures cause { HasCause (self.old.faults.count + self.old.lost) (self.new.faults.count + self.new.lost)
            result }
        ensures runs { RunsOn self.new.running result }
        ensures told { AnswersPoll (hooks_told self.old.lost (C.hooks self.old.children))
            (hooks_told self.new.lost (C.hooks self.new.children)) result }
        ensures script { self.new.script ≡ self.old.script }
        ensures asked { Polls (C.calls self.old.children) (C.calls self.new.children) result }
    {
        match self.children.ask() {
            Ok(None) => {
                self.children
                    .note_hook(HookNote::Polled(Some(Poll::Running)));
                Ok(Poll::Running)
            }
            Ok(Some(end)) => {
                let ended = Poll::Ended(status_number(end));
                self.running = false;
                self.children.note_hook(HookNote::Polled(Some(ended)));
                Ok(ended)
            }
            Err(_) => {
                self.children.note_hook(HookNote::Polled(None));
                self.lose()
            }
        }
    }

    fn abandon(&mut self)
        ensures cause { self.old.faults.count + self.old.lost ≤ self.new.faults.count + self.new.lost }
        ensures runs { self.new.running ≡ false }
        ensures told { Abandons self.old.running (hooks_told self.old.lost (C.hooks self.old.children))
            (hooks_told self.new.lost (C.hooks self.new.children)) }
        ensures script { self.new.script ≡ self.old.script }
        ensures asked { Leaves self.old.running (C.calls self.old.children) (C.calls self.new.children) }
    {
        if !self.running {
            return;
        }
        self.running = false;
        self.children.note_hook(HookNote::Abandoned);
        if end(&mut self.children).is_err() {
            self.faults.counted(DeviceAnswer::Failed);
        }
    }
}
