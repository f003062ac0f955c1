//! One step of the daemon's life: the next event is waited for and handled, and what comes of it is written to the
//! transcript.

ghost use Rattle.std.specs.Prelude.{◌≡◌, ◌≢◌, ◌≤◌, [], ◌∷◌, true, false, Some, Ok, Err, IfOk, IfErr, length, take};
ghost use Rattle.world.specs.LinkCalls.{frame_len};
ghost use Rattle.turn_model.specs.Turns.{is_over, is_end};
ghost use Rattle.daemon.specs.Lives.{life_of, IsOrderly};
ghost use Rattle.daemon.specs.Serving.{HasServeCause};
ghost use Rattle.daemon.specs.Streams.{WritesBytes, WritesSome};
ghost use Rattle.daemon.specs.Waking.{IsOneTurn};
ghost use Rattle.life_devices.specs.Waits.{KnowsChild, WaitsThere};
ghost use Rattle.daemon.specs.Cuts.{WaitFails, BreaksOff};

use crate::lives::Life;
use crate::serving::ServeEnd;
use crate::turns::turn;
use life_devices::Outside;
use settings::Managed;
use std::alloc::Global;
use world::{DeviceAnswer, Event, NoMemory, Sink, Wake};

/// Writes all the bytes.
pub fn write_all<O: Sink>(out: &mut O, bytes: &[u8]) -> Result<(), ServeEnd>
    ensures ok { IfOk result
        (λ _. (O.faults out.old ≤ O.faults out.new)
        × WritesBytes (O.written out.old) (O.written out.new) bytes.now) }
    ensures some { IfErr result (λ _. WritesSome (O.written out.old) (O.written out.new) bytes.now) }
    ensures cause { IfErr result (λ end. HasServeCause end (O.faults out.old) (O.faults out.new) 0 0) }
    ensures memory { result ≡ Err ServeEnd.NoMemory → O.faults out.new ≡ O.faults out.old }
    ensures steady { O.never_fails out.old ≡ true → O.faults out.new ≡ O.faults out.old }
    ensures stays { O.never_fails out.new ≡ O.never_fails out.old }
{
    match out.write(bytes) {
        Ok(()) => Ok(()),
        Err(DeviceAnswer::Failed) => Err(ServeEnd::WriteFault),
        Err(DeviceAnswer::NoMemory) => Err(ServeEnd::NoMemory),
    }
}

#[tactic(auto, using(crate::proofs::Waitings::failed_wait_tells, crate::proofs::Waitings::memory_wait_tells))]
fn wait<W: Outside>(outside: &mut W, until: Option<u64>, buf: &mut [u8]) -> Result<Wake, ServeEnd>
    ensures room { IfOk result (λ wake. frame_len wake.event ≤ length buf.new) }
    ensures waits { IfOk result (λ wake. WaitsThere until (W.seen outside.old) (W.seen outside.new) buf.new (Ok wake)) }
    ensures failed { IfErr result (λ end. WaitFails end until (W.seen outside.old) (W.seen outside.new)) }
    ensures later { IfOk result (λ _. (W.seen outside.old).waiting.faults ≤ (W.seen outside.new).waiting.faults) }
    ensures cause { IfErr result
        (λ end. HasServeCause end 0 0 (W.seen outside.old).waiting.faults (W.seen outside.new).waiting.faults) }
    ensures memory { result ≡ Err ServeEnd.NoMemory
        → (W.seen outside.new).waiting.faults ≡ (W.seen outside.old).waiting.faults }
    ensures foretold { (W.seen outside.old).waiting.failing ≡ Some [] → result ≢ Err ServeEnd.LinkFault }
    ensures failing { (W.seen outside.new).waiting.failing ≡ (W.seen outside.old).waiting.failing }
    ensures child { IfOk result (λ _. (W.seen outside.new).waiting.child ≡ (W.seen outside.old).waiting.child) }
{
    match outside.wait(until, buf) {
        Ok(wake) => Ok(wake),
        Err(DeviceAnswer::Failed) => Err(ServeEnd::LinkFault),
        Err(DeviceAnswer::NoMemory) => Err(ServeEnd::NoMemory),
    }
}

fn ends_life(event: Event) -> bool
    ensures { result ≡ is_end event }
{
    match event {
        Event::End => true,
        Event::Frame { .. } => false,
        Event::Carrier { .. } => false,
        Event::Duplicate { .. } => false,
        Event::Release { .. } => false,
        Event::Rebind { .. } => false,
        Event::Stop => false,
        Event::Quiet => false,
    }
}

fn frame_size(event: Event) -> usize
    ensures { result ≡ frame_len event }
{
    match event {
        Event::Frame { len, .. } => len,
        Event::Carrier { .. } => 0,
        Event::Duplicate { .. } => 0,
        Event::Release { .. } => 0,
        Event::Rebind { .. } => 0,
        Event::Stop => 0,
        Event::Quiet => 0,
        Event::End => 0,
    }
}

/// The first bytes of a buffer.
fn front(buf: &[u8], len: usize) -> &[u8]
    requires { len ≤ length buf.now }
    ensures { result.now ≡ take len buf.now }
{
    let (front, _rest) = buf.split_at(len);
    front
}

/// Where a life stands after a wake.
#[derive(Drop)]
pub enum Woken {
    /// It goes on.
    On(Life),
    /// It is over: nothing more came, or the time after a stop has passed.
    Over(Life),
}

/// Waits for the next wake, and handles it.
pub fn one_turn<O: Sink, W: Outside>(
    alloc: Global,
    managed: &[Managed],
    life: Life,
    outside: &mut W,
    out: &mut O,
    buf: &mut [u8],
    text: &mut Vec<u8>,
) -> Result<Woken, ServeEnd>
    requires orderly { IsOrderly life }
    requires child { KnowsChild life.hooks (W.seen outside.old) }
    requires going { is_over (life_of life) ≡ false }
    requires room { length buf.old ≡ 2048 }
    ensures ok { IfOk result
        (λ woken. IsOneTurn managed.now (life_of life) (W.seen outside.old) (O.written out.old) woken
        (W.seen outside.new) (O.written out.new)) }
    ensures cut { IfErr result
        (λ end. BreaksOff end 1 managed.now (life_of life) (W.seen outside.old) (W.seen outside.new)
        (O.written out.old) (O.written out.new)) }
    ensures later { IfOk result
        (λ woken. (O.faults out.old ≤ O.faults out.new)
        × ((W.seen outside.old).waiting.faults ≤ (W.seen outside.new).waiting.faults)) }
    ensures cause { IfErr result
        (λ end. HasServeCause end (O.faults out.old) (O.faults out.new) (W.seen outside.old).waiting.faults
        (W.seen outside.new).waiting.faults) }
    ensures foretold { (W.seen outside.old).waiting.failing ≡ Some [] → result ≢ Err ServeEnd.LinkFault }
    ensures failing { (W.seen outside.new).waiting.failing ≡ (W.seen outside.old).waiting.failing }
    ensures steady { O.never_fails out.old ≡ true → O.faults out.new ≡ O.faults out.old }
    ensures stays { O.never_fails out.new ≡ O.never_fails out.old }
{
    let wake = wait(outside, life.until(), buf)?;
    if ends_life(wake.event) {
        return Ok(Woken::Over(life));
    }
    let len = frame_size(wake.event);
    text.clear();
    let life = turn(alloc, managed, life, wake, front(buf, len), outside, text)?;
    write_all(out, text)?;
    if life.is_over() {
        return Ok(Woken::Over(life));
    }
    Ok(Woken::On(life))
}
