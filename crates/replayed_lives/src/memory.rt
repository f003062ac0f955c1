//! The devices of a script, in memory: of their calls those fail that the script lists.
ghost use Rattle.std.specs.Prelude.{◌≡◌, [], IfOk, All, map, option_map, length};
ghost use Rattle.world.specs.Rows.{IsRow};
ghost use Rattle.world_mem.specs.LinkRecord as memory;
ghost use Rattle.world_mem.specs.StoreMem.StoreRecord as stores;
ghost use Rattle.replay_text.specs.ScriptContent as content;
ghost use Rattle.script_model.specs.FirstFiles.{FitsFile};
ghost use Rattle.script_model.specs.FailingCalls.{failing_calls, is_same_device};
ghost use Rattle.world_mem.specs.HookRecord.{poll_of};
ghost use Rattle.replayed_lives.specs.Memory.{forgotten, hooks_of, link_of, store_of, host_of};
ghost use Rattle.replayed_lives.specs.Replays.{fuse_of, pick_of, store_fails, store_left};

use daemon::Devices;
use replay_text::{CrashLine, FileLine, LifeLines, TurnLine};
use script_model::{CrashKind, FailDevice, FailLine};
use std::alloc::Global;
use std::mem::ManuallyDrop;
use world::{Hooks, HostRow, NoMemory, Poll};
use world_mem::{MemFile, MemHooks, MemHost, MemLink, MemPoll, MemStore, MemWake, Pick};

/// The devices of a life.
pub type Memory = Devices<MemLink, MemStore, MemHost, MemHooks>;

/// What goes on from one life to the next.
#[derive(Drop)]
pub struct Between {
    /// How many lives there were.
    pub lives: u64,
    /// How many frames they offered.
    pub sent: u64,
    pub store: MemStore,
    pub host: MemHost,
    pub hooks: MemHooks,
}

fn is_same_device(one: FailDevice, other: FailDevice) -> bool
    ensures { result ≡ is_same_device one other }
{
    one == other
}

/// The numbers of the calls of a device that fail.
pub fn numbers_of(
    alloc: Global,
    device: FailDevice,
    fails: &[FailLine],
) -> Result<Vec<u64>, NoMemory>
    ensures { IfOk result (λ numbers. numbers.items ≡ failing_calls device fails.now) }
{
    let numbers = fails
        .iter()
        .filter(|fail| is_same_device(fail.device, device))
        .map(|fail| fail.number)
        .collect(alloc)?;
    Ok(numbers)
}

fn files_of(alloc: Global, files: Vec<FileLine>) -> Result<Vec<MemFile>, NoMemory>
    ensures { IfOk result (λ held. map stores.file_of held.items ≡ map content.file_of files.items) }
{
    let mut held = Vec::with_capacity(alloc, files.len())?;
    for file in files {
        let FileLine { name, bytes } = file;
        held.push(MemFile { name, bytes })?;
    }
    Ok(held)
}

#[tactic(auto, using(crate::proofs::FirstNames::names_held))]
fn store(alloc: Global, files: Vec<FileLine>, fails: &[FailLine]) -> Result<MemStore, NoMemory>
    requires { All FitsFile (map content.file_of files.items) }
    ensures { IfOk result (λ store. store ≡ store_of (map content.file_of files.items) fails.now) }
{
    let calls = numbers_of(alloc, FailDevice::Store, fails)?;
    let held = files_of(alloc, files)?;
    MemStore::new(alloc, held, calls)
}

fn host(alloc: Global, rows: Vec<HostRow>, fails: &[FailLine]) -> Result<MemHost, NoMemory>
    requires { All IsRow rows.items }
    ensures { IfOk result (λ host. host ≡ host_of rows.items fails.now) }
{
    let calls = numbers_of(alloc, FailDevice::Host, fails)?;
    MemHost::new(alloc, rows, calls)
}

/// What a poll is to answer.
fn answer_of(poll: Option<Poll>) -> MemPoll
    ensures { poll_of result ≡ poll }
{
    match poll {
        Some(Poll::Running) => MemPoll::Run,
        Some(Poll::Ended(status)) => MemPoll::Ended(status),
        None => MemPoll::Failed,
    }
}

fn answers_of(alloc: Global, polls: &[Option<Poll>]) -> Result<Vec<MemPoll>, NoMemory>
    ensures { IfOk result (λ answers. map poll_of answers.items ≡ polls.now) }
{
    let mut answers = Vec::with_capacity(alloc, polls.len())?;
    for poll in polls {
        answers.push(answer_of(*poll))?;
    }
    Ok(answers)
}

fn hooks(alloc: Global, polls: &[Option<Poll>], fails: &[FailLine]) -> Result<MemHooks, NoMemory>
    ensures { IfOk result (λ hooks. hooks ≡ hooks_of polls.now fails.now) }
{
    let starts = numbers_of(alloc, FailDevice::Hooks, fails)?;
    let answers = answers_of(alloc, polls)?;
    Ok(MemHooks::new(alloc, answers, starts))
}

/// What a script's first life finds.
pub fn at_first(
    alloc: Global,
    rows: Vec<HostRow>,
    files: Vec<FileLine>,
    polls: &[Option<Poll>],
    fails: &[FailLine],
) -> Result<Between, NoMemory>
    requires rows { All IsRow rows.items }
    requires files { All FitsFile (map content.file_of files.items) }
    ensures counts { IfOk result (λ between. (between.lives ≡ 0) × (between.sent ≡ 0)) }
    ensures store { IfOk result (λ between. between.store ≡ store_of (map content.file_of files.items) fails.now) }
    ensures host { IfOk result (λ between. between.host ≡ host_of rows.items fails.now) }
    ensures hooks { IfOk result (λ between. between.hooks ≡ hooks_of polls.now fails.now) }
{
    Ok(Between {
        lives: 0,
        sent: 0,
        store: store(alloc, files, fails)?,
        host: host(alloc, rows, fails)?,
        hooks: hooks(alloc, polls, fails)?,
    })
}

fn wakes_of(alloc: Global, turns: Vec<TurnLine>) -> Result<Vec<MemWake>, NoMemory>
    ensures { IfOk result (λ wakes. map memory.given_of wakes.items ≡ map content.given_of turns.items) }
{
    let mut wakes = Vec::with_capacity(alloc, turns.len())?;
    for turn in turns {
        let TurnLine { wake, bytes } = turn;
        wakes.push(MemWake { wake, bytes })?;
    }
    Ok(wakes)
}

fn link(alloc: Global, sent: u64, sends: &[u64], life: LifeLines) -> Result<MemLink, NoMemory>
    ensures { IfOk result (λ link. link ≡ link_of (content.life_of life) sent sends.now) }
{
    let wakes = wakes_of(alloc, life.turns)?;
    let failing = sends.to_vec(alloc)?;
    let waits = Vec::new(alloc);
    Ok(MemLink::new(alloc, life.begin, wakes, sent, failing, waits))
}

/// After how many calls a crash cuts a life's calls of its store off.
fn fuse_of(crash: Option<CrashLine>) -> Option<u64>
    ensures { result ≡ fuse_of (option_map content.crash_of crash) }
{
    crash?.calls
}

/// The devices of a life that begins over what the life before left. `sends` are the sends that fail, counted over all
/// lives.
pub fn devices(
    alloc: Global,
    between: Between,
    sends: &[u64],
    life: LifeLines,
) -> Result<Memory, NoMemory>
    ensures link { IfOk result (λ live. live.link ≡ link_of (content.life_of life) between.sent sends.now) }
    ensures host { IfOk result (λ live. live.host ≡ between.host) }
    ensures told { IfOk result (λ live. live.store.told ≡ between.store.told) }
    ensures failing { IfOk result
        (λ live. live.store.failing
        ≡ store_fails between.store.failing.numbers (length between.store.told.calls)
        (content.life_of life).crash) }
    ensures hooks { IfOk result (λ live. live.hooks ≡ between.hooks) }
{
    let Between {
        lives: _,
        sent,
        mut store,
        host,
        hooks,
    } = between;
    store.set_fuse(fuse_of(life.crash));
    Ok(Memory {
        link: link(alloc, sent, sends, life)?,
        store,
        host,
        hooks,
    })
}

fn pick_of(kind: CrashKind) -> Pick
    ensures { result ≡ pick_of kind }
{
    match kind {
        CrashKind::Old => Pick::Old,
        CrashKind::New => Pick::New,
    }
}

/// The store as the next life finds it.
fn left_store(store: MemStore, crash: Option<CrashLine>) -> Result<MemStore, NoMemory>
    ensures told { IfOk result (λ left. left.told ≡ store_left (option_map content.crash_of crash) store.told) }
    ensures failing { IfOk result (λ left. left.failing ≡ store.failing) }
{
    match crash {
        Some(crash) => store.after_crash(pick_of(crash.kind)),
        None => Ok(store),
    }
}

/// Leaves a value to the end of the process, which gives its memory back at once: the calls of a long script stand in
/// some hundred thousand pieces, and to free each takes a tenth of the time.
pub fn leave<T: Drop>(value: T) {
    let _left = ManuallyDrop::new(value);
}

/// What the life with this number leaves to the next one. A hook's child that runs is forgotten.
#[tactic(auto, using(crate::proofs::Forgetting::forgets))]
pub fn left(number: u64, live: Memory, crash: Option<CrashLine>) -> Result<Between, NoMemory>
    ensures counts { IfOk result (λ next. (next.lives ≡ number) × (next.sent ≡ live.link.told.sends)) }
    ensures host { IfOk result (λ next. next.host ≡ live.host) }
    ensures told { IfOk result
        (λ next. next.store.told ≡ store_left (option_map content.crash_of crash) live.store.told) }
    ensures failing { IfOk result (λ next. next.store.failing ≡ live.store.failing) }
    ensures hooks { IfOk result (λ next. next.hooks ≡ forgotten live.hooks) }
{
    let Memory {
        link,
        store,
        host,
        mut hooks,
    } = live;
    hooks.abandon();
    let sent = link.sent();
    leave(link);
    Ok(Between {
        lives: number,
        sent,
        store: left_store(store, crash)?,
        host,
        hooks,
    })
}
