//! A stand-in for hook scripts: nothing runs, jobs are recorded, and answers and failures are told beforehand.

ghost use Rattle.std.specs.Prelude.{◌≡◌, map, IfOk, IfErr};
ghost use Rattle.world.specs.HookCalls.{job_of, variable_of};
ghost use Rattle.world_mem.specs.HookRecord.{hooks_start};

use call_record::{Numbers, copy_text, enter, make_room, next_number};
use net_types::Failed;
use std::alloc::Global;
use std::marker::Model;
use world::{DeviceAnswer, HookJob, HookVar, Hooks, Poll};

/// What a poll is to answer.
#[derive(Clone, Copy, PartialEq, Eq)]
pub enum MemPoll {
    /// The child still runs.
    Run,
    /// It ended with this status.
    Ended(u32),
    /// The poll fails.
    Failed,
}

/// A call that hooks answered.
#[derive(Drop)]
pub(crate) enum HookEntry {
    Start { job: HookJob, done: bool },
    Poll { answer: MemPoll },
    Abandon,
}

/// Hooks in memory: no script runs, and polls are answered as told.
#[derive(Drop)]
pub struct MemHooks {
    alloc: Global,
    polls: Vec<MemPoll>,
    /// The place of the next answer.
    next: usize,
    running: bool,
    starts: u64,
    calls: Vec<HookEntry>,
    fails: Numbers,
}

impl Model for MemHooks {
    ghost use Rattle.std.specs.Prelude.{map, drop, length, vec_len};
    ghost use Rattle.std.specs.Vec.{vec_capacity};
    ghost use Rattle.world_mem.specs.HookRecord.{HooksState, HoldsCalls, poll_of, call_of};

    ghost Value = { HooksState };

    ghost view = { λ hooks. record {
      told = record { polls = map poll_of (drop hooks.next hooks.polls.items); calls = map call_of hooks.calls.items };
      running = hooks.running;
      failing = hooks.fails;
    } };

    ghost invariant = { λ hooks.
        HoldsCalls (map call_of hooks.calls.items) hooks.starts hooks.next (length hooks.polls.items) hooks.running
        (vec_len hooks.calls) (vec_capacity hooks.calls) };
}

impl MemHooks {
    /// Hooks whose polls are answered so in order, then by `Ended(0)`. They fail at the starts with these numbers, from
    /// 1.
    pub fn new(alloc: Global, polls: Vec<MemPoll>, starts: Vec<u64>) -> MemHooks
        ensures { result ≡ hooks_start polls.items starts.items }
    {
        MemHooks {
            alloc,
            polls,
            next: 0,
            running: false,
            starts: 0,
            calls: Vec::new(alloc),
            fails: Numbers::new(starts),
        }
    }
}

fn copy_var(alloc: Global, var: &HookVar) -> Result<HookVar, DeviceAnswer>
    ensures ok { IfOk result (λ copy. variable_of copy ≡ variable_of var.now) }
    ensures err { IfErr result (λ e. e ≡ DeviceAnswer.NoMemory) }
{
    let name = copy_text(alloc, &var.name)?;
    let value = copy_text(alloc, &var.value)?;
    Ok(HookVar { name, value })
}

fn copy_vars(alloc: Global, vars: &[HookVar]) -> Result<Vec<HookVar>, DeviceAnswer>
    ensures ok { IfOk result (λ copy. map variable_of copy.items ≡ map variable_of vars.now) }
    ensures err { IfErr result (λ e. e ≡ DeviceAnswer.NoMemory) }
{
    let mut copies = Vec::new(alloc);
    for var in vars {
        let copy = copy_var(alloc, var)?;
        let Ok(()) = copies.push(copy) else {
            return Err(DeviceAnswer::NoMemory);
        };
    }
    Ok(copies)
}

fn copy_job(alloc: Global, job: &HookJob) -> Result<HookJob, DeviceAnswer>
    ensures ok { IfOk result (λ copy. job_of copy ≡ job_of job.now) }
    ensures err { IfErr result (λ e. e ≡ DeviceAnswer.NoMemory) }
{
    let script = copy_text(alloc, &job.script)?;
    let vars = copy_vars(alloc, &job.vars)?;
    Ok(HookJob {
        number: job.number,
        reason: job.reason,
        iface: job.iface,
        script,
        vars,
    })
}

impl Hooks for MemHooks {
    ghost use Rattle.std.specs.Prelude.{Some, count_by};
    ghost use Rattle.world_mem.specs.HookRecord.{hook_failed};

    ghost faults = { λ hooks. count_by hook_failed hooks.told.calls };

    ghost running = { λ hooks. hooks.running };

    ghost told = { λ hooks. Some hooks.told };

    ghost failing = { λ hooks. Some hooks.failing };

    fn start(&mut self, job: &HookJob) -> Result<(), DeviceAnswer> {
        let number = next_number(self.starts)?;
        // Room for the start, for each poll that is to be answered, for one after them and for an abandoning: those
        // take no memory.
        make_room(&mut self.calls, self.polls.len() - self.next + 3)?;
        let copy = copy_job(self.alloc, job)?;
        let done = !self.fails.has(number);
        enter(&mut self.calls, HookEntry::Start { job: copy, done });
        self.starts = number;
        if !done {
            return Err(DeviceAnswer::Failed);
        }
        self.running = true;
        Ok(())
    }

    fn poll(&mut self) -> Result<Poll, Failed> {
        let answer = match self.polls.get(self.next) {
            Some(answer) => {
                self.next += 1;
                *answer
            }
            None => MemPoll::Ended(0),
        };
        enter(&mut self.calls, HookEntry::Poll { answer });
        match answer {
            MemPoll::Run => Ok(Poll::Running),
            MemPoll::Ended(status) => {
                self.running = false;
                Ok(Poll::Ended(status))
            }
            MemPoll::Failed => Err(Failed),
        }
    }

    fn abandon(&mut self) {
        if self.running {
            enter(&mut self.calls, HookEntry::Abandon);
            self.running = false;
        }
    }
}
