//! The supervisor and its calls.
ghost use Rattle.std.specs.Prelude.{◌≡◌, length, option_map, IfOk, IsSome};
ghost use Rattle.world.specs.HookCalls.{job_of};
ghost use Rattle.hook_child.specs.Supervision.{after_next, after_poll, after_put, childless, idle, is_over_time, next_order, order_of, poll_order, put_answer};

use crate::answers::{Dropped, Turned};
use crate::child::Child;
use machine::clamp_moment;
use net_types::NoMemory;
use std::alloc::Global;
use std::collections::VecDeque;
use std::marker::Model;
use world::{HookJob, Poll};

/// How many jobs may wait.
const WAITING_MAX: usize = 1024;

/// How long a child may run, in milliseconds.
const CHILD_TIME: u64 = 60_000;

/// The jobs that wait and the child that runs. The room for all jobs that may wait is taken at the beginning.
#[derive(Drop)]
pub struct Supervisor {
    /// The number of the job that was put last.
    last: u64,
    jobs: VecDeque<HookJob>,
    child: Option<Child>,
}

impl Model for Supervisor {
    ghost use Rattle.std.specs.Prelude.{map, ◌≤◌, length};
    ghost use Rattle.std.specs.VecDeque.{deque_capacity};
    ghost use Rattle.world.specs.HookCalls.{job_of};
    ghost use Rattle.hook_child.specs.Supervision.{Supervision, most_waiting};

    ghost Value = { Supervision };

    ghost view = { λ s. record { last = s.last; waiting = map job_of s.jobs.items; child = s.child } };

    ghost invariant = { λ s. (length s.jobs.items ≤ most_waiting) × (most_waiting ≤ deque_capacity s.jobs) };
}

/// A supervisor with no job.
pub fn supervisor_new(alloc: Global) -> Result<Supervisor, NoMemory>
    ensures { IfOk result (λ s. s ≡ idle) }
{
    let jobs = VecDeque::with_capacity(alloc, WAITING_MAX)?;
    Ok(Supervisor {
        last: 0,
        jobs,
        child: None,
    })
}

/// Puts a job in line, and gives it its number. Numbers count from 1, the jobs that were dropped included. A job is
/// dropped where 1,024 wait.
pub fn put(s: &mut Supervisor, mut job: HookJob) -> Result<u64, Dropped>
    ensures answer { result ≡ put_answer s.old }
    ensures line { s.new ≡ after_put (job_of job) s.old }
{
    let number = s.last.saturating_add(1);
    s.last = number;
    if s.jobs.len() >= WAITING_MAX {
        return Err(Dropped { number });
    }
    job.number = number;
    let Ok(()) = s.jobs.push_back(job) else {
        unreachable!()
    };
    Ok(number)
}

/// Takes what a poll of the running child said; a poll that failed counts as `Running`. A child that still runs 60,000
/// ms or more after its start is to be abandoned. After `Abandon`, and where the child has ended, none runs.
pub fn polled(s: &mut Supervisor, answer: Poll, at: u64) -> Turned
    requires { IsSome s.old.child }
    ensures order { order_of result ≡ poll_order answer at s.old.child }
    ensures child { s.new ≡ after_poll answer at s.old }
{
    match answer {
        Poll::Ended(_) => {
            s.child = None;
            Turned::Idle
        }
        Poll::Running if is_over_time(at, s.child) => {
            s.child = None;
            Turned::Abandon
        }
        Poll::Running => Turned::Idle,
    }
}

/// Whether a child has had its time.
fn is_over_time(at: u64, child: Option<Child>) -> bool
    ensures { result ≡ is_over_time at child }
{
    child.is_some_and(|child| clamp_moment(at).saturating_sub(child.since) >= CHILD_TIME)
}

/// Gives the job that waits longest, where no child runs. It runs from then on.
pub fn next_job(s: &mut Supervisor, at: u64) -> Turned
    ensures order { order_of result ≡ next_order s.old }
    ensures line { s.new ≡ after_next at s.old }
{
    if s.child.is_some() {
        return Turned::Idle;
    }
    let Some(job) = s.jobs.pop_front() else {
        return Turned::Idle;
    };
    s.child = Some(Child {
        number: job.number,
        since: clamp_moment(at),
    });
    Turned::Start(job)
}

/// The start of the job that runs has failed: no child runs, and the job is used up.
pub fn not_started(s: &mut Supervisor)
    requires { IsSome s.old.child }
    ensures { s.new ≡ childless s.old }
{
    s.child = None;
}

/// The number of the job that runs.
pub fn running(s: &Supervisor) -> Option<u64>
    ensures { result ≡ option_map (λ child. child.number) s.now.child }
{
    s.child.map(|child| child.number)
}

/// How many jobs wait.
pub fn waiting(s: &Supervisor) -> usize
    ensures { result ≡ length s.now.waiting }
{
    s.jobs.len()
}
