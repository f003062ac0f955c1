//! Hooks: the child that runs is polled, and jobs are put in line and started, one at a time.
ghost use Rattle.std.specs.Prelude.{◌≡◌, ◌<◌, ◌^◌, true, false, bytes_eq, codes, find, map, Some, IfOk, IfErr, OnOk, IsSome, option_map};
ghost use Rattle.std.specs.Option.{option_copied};
ghost use Rattle.std.specs.String.{string_bytes};
ghost use Rattle.world.specs.HookCalls as calls;
ghost use Rattle.world.specs.HookCalls.{job_of, variable_of};
ghost use Rattle.hook_child.specs.Supervision.{order_of, next_order, after_next};
ghost use Rattle.device_calls.specs.Calls.{Abandon, Start};
ghost use Rattle.device_calls.specs.Calls as asks;
ghost use Rattle.device_calls.specs.CallLines.{interface_of, variable_line, hook_lines};
ghost use Rattle.device_calls.specs.Programs.{Then, Done};
ghost use Rattle.device_calls.specs.Printing.{Prints};
ghost use Rattle.device_calls.specs.Does.{Does};
ghost use Rattle.device_calls.specs.Fronts.{HasBegun};
ghost use Rattle.turn_model.specs.Hooking.{hooks_due, heard, polling, putting_one, putting, started, starting, hooking};
ghost use Rattle.life_devices.specs.Answered.{runs_on};
ghost use Rattle.life_asks.specs.Hooking.{Puts, is_abandon};
ghost use Rattle.life_devices.specs.Waits.{KnowsChild, OnlyChild};

use hook_child::{
    Dropped, Supervisor, Turned, next_job, not_started, polled, put, running, waiting,
};
use life_devices::{Outside, say};
use std::alloc::Global;
use transcript_text::TranscriptLine;
use world::{HookJob, HookVar, NoMemory, Poll};

/// After this time a child that runs is polled again, in milliseconds.
const POLL_TIME: u64 = 1000;

/// When hooks want a turn: a second later while a child runs, and at once where a job waits and none runs.
#[tactic(auto, using(crate::proofs::Hookings::due_running, crate::proofs::Hookings::due_waiting, crate::proofs::Hookings::due_never))]
pub fn hooks_due(hooks: &Supervisor, now: u64) -> Option<u64>
    requires { now < 10 ^ 15 }
    ensures { result ≡ hooks_due hooks.now now }
{
    match running(hooks) {
        Some(_) => Some(now + POLL_TIME),
        None if waiting(hooks) > 0 => Some(now),
        None => None,
    }
}

// ---- the child that runs

/// Polls the child of the job of a number.
fn poll<W: Outside>(
    outside: &mut W,
    number: u64,
    text: &mut Vec<u8>,
) -> Result<Option<Poll>, NoMemory>
    requires { (W.seen outside.old).waiting.child ≡ true }
    ensures does { IfOk result
        (λ answer. Does (Then (asks.Poll number) Done) answer (W.seen outside.old)
        (W.seen outside.new) text.old.items text.new.items) }
    ensures begun { IfErr result
        (λ _. HasBegun (Then (asks.Poll number) Done) (W.seen outside.old) (W.seen outside.new)) }
    ensures child { IfOk result (λ answer. (W.seen outside.new).waiting.child ≡ runs_on answer) }
    ensures waiting { OnlyChild (W.seen outside.old).waiting (W.seen outside.new).waiting }
{
    let answer = outside.poll(number);
    say(&TranscriptLine::HookPolled { number, answer }, text)?;
    Ok(answer)
}

/// Forgets the child of the job of a number.
fn abandon<W: Outside>(outside: &mut W, number: u64, text: &mut Vec<u8>) -> Result<(), NoMemory>
    requires { (W.seen outside.old).waiting.child ≡ true }
    ensures does { IfOk result
        (λ x. Does (Then (Abandon number) Done) x (W.seen outside.old)
        (W.seen outside.new) text.old.items text.new.items) }
    ensures begun { IfErr result
        (λ _. HasBegun (Then (Abandon number) Done) (W.seen outside.old) (W.seen outside.new)) }
    ensures child { (W.seen outside.new).waiting.child ≡ false }
    ensures waiting { OnlyChild (W.seen outside.old).waiting (W.seen outside.new).waiting }
{
    outside.abandon(number);
    say(&TranscriptLine::HookAbandoned(number), text)
}

/// What a poll says; one that failed says no other than one that finds the child running.
fn heard(answer: Option<Poll>) -> Poll
    ensures { result ≡ heard answer }
{
    match answer {
        None => Poll::Running,
        Some(poll) => poll,
    }
}

/// Polls the child that runs, and forgets it where it has had its time.
pub fn poll_child<W: Outside>(
    outside: &mut W,
    hooks: &mut Supervisor,
    at: u64,
    text: &mut Vec<u8>,
) -> Result<(), NoMemory>
    requires { KnowsChild hooks.old (W.seen outside.old) }
    ensures does { OnOk result
        (Does (polling at hooks.old) hooks.new (W.seen outside.old)
        (W.seen outside.new) text.old.items text.new.items) }
    ensures begun { IfErr result (λ _. HasBegun (polling at hooks.old) (W.seen outside.old) (W.seen outside.new)) }
    ensures child { OnOk result (KnowsChild hooks.new (W.seen outside.new)) }
    ensures waiting { OnlyChild (W.seen outside.old).waiting (W.seen outside.new).waiting }
{
    match running(hooks) {
        None => Ok(()),
        Some(number) => poll_running(outside, hooks, number, at, text),
    }
}

/// Whether the child is to be forgotten.
fn is_abandon(order: &Turned) -> bool
    ensures { result ≡ is_abandon (order_of order.now) }
{
    match order {
        Turned::Abandon => true,
        Turned::Idle => false,
        Turned::Start(_) => false,
    }
}

/// The same of the child of the job of a number.
fn poll_running<W: Outside>(
    outside: &mut W,
    hooks: &mut Supervisor,
    number: u64,
    at: u64,
    text: &mut Vec<u8>,
) -> Result<(), NoMemory>
    requires number { Some number ≡ option_map (λ child. child.number) hooks.old.child }
    requires child { (W.seen outside.old).waiting.child ≡ true }
    ensures does { OnOk result
        (Does (polling at hooks.old) hooks.new (W.seen outside.old)
        (W.seen outside.new) text.old.items text.new.items) }
    ensures begun { IfErr result (λ _. HasBegun (polling at hooks.old) (W.seen outside.old) (W.seen outside.new)) }
    ensures child { OnOk result (KnowsChild hooks.new (W.seen outside.new)) }
    ensures waiting { OnlyChild (W.seen outside.old).waiting (W.seen outside.new).waiting }
{
    let answer = poll(outside, number, text)?;
    let order = polled(hooks, heard(answer), at);
    if is_abandon(&order) {
        return abandon(outside, number, text);
    }
    Ok(())
}

// ---- jobs

/// The first variable that is named `interface`.
fn interface_variable(vars: &[HookVar]) -> Option<&HookVar>
    ensures { option_copied result ≡ find (λ var. bytes_eq (string_bytes var.name) (codes "interface")) vars.now }
{
    vars.iter().find(|var| var.name.as_str() == "interface")
}

/// The interface of a job, as its variable of that name has it.
fn interface_of(job: &HookJob) -> &str
    ensures { result.now ≡ interface_of (job_of job.now) }
{
    match interface_variable(&job.vars) {
        Some(var) => &var.value,
        None => "",
    }
}

/// Puts a job in line, or drops it where the line is full. `name` is that of its interface.
fn put_named(
    hooks: &mut Supervisor,
    job: HookJob,
    name: &str,
    text: &mut Vec<u8>,
) -> Result<(), NoMemory>
    requires { name.now ≡ interface_of (job_of job) }
    ensures puts { OnOk result (Puts (putting_one (job_of job) hooks.old) hooks.new text.old.items text.new.items) }
    ensures child { hooks.new.child ≡ hooks.old.child }
{
    let reason = job.reason;
    match put(hooks, job) {
        Ok(_) => Ok(()),
        Err(Dropped { number }) => {
            let line = TranscriptLine::HookDropped {
                number,
                reason,
                name,
            };
            say(&line, text)
        }
    }
}

/// Puts a job in line, or drops it where the line is full.
fn put_one(
    alloc: Global,
    hooks: &mut Supervisor,
    job: HookJob,
    text: &mut Vec<u8>,
) -> Result<(), NoMemory>
    ensures puts { OnOk result (Puts (putting_one (job_of job) hooks.old) hooks.new text.old.items text.new.items) }
    ensures child { hooks.new.child ≡ hooks.old.child }
{
    let name = String::from_str(alloc, interface_of(&job))?;
    put_named(hooks, job, &name, text)
}

/// Puts each job in line, or drops it where the line is full.
fn put_all(
    alloc: Global,
    hooks: &mut Supervisor,
    jobs: Vec<HookJob>,
    text: &mut Vec<u8>,
) -> Result<(), NoMemory>
    ensures puts { OnOk result
        (Puts (putting (map job_of jobs.items) hooks.old) hooks.new text.old.items text.new.items) }
    ensures child { hooks.new.child ≡ hooks.old.child }
{
    for job in jobs {
        put_one(alloc, hooks, job, text)?;
    }
    Ok(())
}

#[tactic(auto, using(device_calls::proofs::Printings::prints_none, crate::proofs::Hookings::variables_more))]
fn say_variables(vars: &[HookVar], text: &mut Vec<u8>) -> Result<(), NoMemory>
    ensures { OnOk result (Prints text.old.items text.new.items (map variable_line (map variable_of vars.now))) }
{
    for var in vars {
        let line = TranscriptLine::Variable {
            name: &var.name,
            value: &var.value,
        };
        say(&line, text)?;
    }
    Ok(())
}

#[tactic(auto, using(device_calls::proofs::Printings::prints_then))]
fn say_started(job: &HookJob, done: bool, text: &mut Vec<u8>) -> Result<(), NoMemory>
    ensures { OnOk result
        (Prints text.old.items text.new.items
        (hook_lines (job_of job.now).number (calls.Started (job_of job.now) done))) }
{
    let line = TranscriptLine::HookStarted {
        number: job.number,
        reason: job.reason,
        name: interface_of(job),
        done,
    };
    say(&line, text)?;
    say_variables(&job.vars, text)
}

/// Starts a job.
fn start<W: Outside>(outside: &mut W, job: &HookJob, text: &mut Vec<u8>) -> Result<bool, NoMemory>
    requires { (W.seen outside.old).waiting.child ≡ false }
    ensures does { IfOk result
        (λ done. Does (Then (Start (job_of job.now)) Done) done (W.seen outside.old)
        (W.seen outside.new) text.old.items text.new.items) }
    ensures begun { IfErr result
        (λ _. HasBegun (Then (Start (job_of job.now)) Done) (W.seen outside.old) (W.seen outside.new)) }
    ensures child { IfOk result (λ done. (W.seen outside.new).waiting.child ≡ done) }
    ensures waiting { OnlyChild (W.seen outside.old).waiting (W.seen outside.new).waiting }
{
    let done = outside.start(job)?;
    say_started(job, done, text)?;
    Ok(done)
}

/// Notes whether the start of the job that runs was done. One that failed uses the job up.
fn note_start(hooks: &mut Supervisor, done: bool)
    requires { IsSome hooks.old.child }
    ensures { hooks.new ≡ started done hooks.old }
{
    if !done {
        not_started(hooks);
    }
}

/// Starts the job that waits longest, where no child runs.
fn start_next<W: Outside>(
    outside: &mut W,
    hooks: &mut Supervisor,
    at: u64,
    text: &mut Vec<u8>,
) -> Result<(), NoMemory>
    requires { KnowsChild hooks.old (W.seen outside.old) }
    ensures does { OnOk result
        (Does (starting (next_order hooks.old) (after_next at hooks.old)) hooks.new (W.seen outside.old)
        (W.seen outside.new) text.old.items text.new.items) }
    ensures begun { IfErr result
        (λ _. HasBegun (starting (next_order hooks.old) (after_next at hooks.old)) (W.seen outside.old)
        (W.seen outside.new)) }
    ensures child { OnOk result (KnowsChild hooks.new (W.seen outside.new)) }
    ensures waiting { OnlyChild (W.seen outside.old).waiting (W.seen outside.new).waiting }
{
    match next_job(hooks, at) {
        Turned::Start(job) => {
            let done = start(outside, &job, text)?;
            note_start(hooks, done);
            Ok(())
        }
        Turned::Idle => Ok(()),
        Turned::Abandon => Ok(()),
    }
}

/// Puts the jobs of a turn in line, and starts the first in line where no child runs.
pub fn hook_turn<W: Outside>(
    alloc: Global,
    outside: &mut W,
    hooks: &mut Supervisor,
    jobs: Vec<HookJob>,
    at: u64,
    text: &mut Vec<u8>,
) -> Result<(), NoMemory>
    requires { KnowsChild hooks.old (W.seen outside.old) }
    ensures does { OnOk result
        (Does (hooking at (map job_of jobs.items) hooks.old) hooks.new (W.seen outside.old)
        (W.seen outside.new) text.old.items text.new.items) }
    ensures begun { IfErr result
        (λ _. HasBegun (hooking at (map job_of jobs.items) hooks.old) (W.seen outside.old) (W.seen outside.new)) }
    ensures child { OnOk result (KnowsChild hooks.new (W.seen outside.new)) }
    ensures waiting { OnlyChild (W.seen outside.old).waiting (W.seen outside.new).waiting }
{
    put_all(alloc, hooks, jobs, text)?;
    start_next(outside, hooks, at, text)
}
