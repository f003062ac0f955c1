//! The run of one life, from its beginning through at most so many turns to its last line, and the ways in which it
//! may end.

ghost use Rattle.std.specs.Prelude.{◌≡◌, ◌≢◌, ◌≤◌, [], Some, true, false, Ok, Err, IfOk, IfErr, length};
ghost use Rattle.settings.specs.Fitting.{AreManaged};
ghost use Rattle.turn_model.specs.Turns.{is_over};
ghost use Rattle.daemon.specs.declared.serving.ServeEnd.TheVariants.{NoMemory as no_memory};
ghost use Rattle.daemon.specs.Lives.{life_of, IsOrderly};
ghost use Rattle.life_devices.specs.Waits.{BeginsThere, KnowsChild};
ghost use Rattle.daemon.specs.Serving.{HasServeCause, HasLifeCause, HasEndCause, AreManyTurns, Ends};
ghost use Rattle.daemon.specs.Served.{Served};
ghost use Rattle.daemon.specs.Cuts.{BreaksOff, BeginFails, Leaves};
ghost use Rattle.daemon.specs.Filed.{LeavesFiled};

use crate::closing::close;
use crate::lives::Life;
use crate::openings::open;
use crate::waking::{Woken, one_turn, write_all};
use life_devices::Outside;
use net_types::IfSpec;
use settings::Managed;
use std::alloc::Global;
use world::{Begin, Failed, NoMemory, Sink};

/// The room for a frame, in bytes.
const FRAME_ROOM: usize = 2048;

/// How a life ended.
#[derive(Clone, Copy, Debug, PartialEq, Eq)]
pub enum ServeEnd {
    /// Nothing more came, or the time after a stop was over.
    End,
    /// As many wakes as were allowed were handled.
    TurnsOver,
    LinkFault,
    WriteFault,
    NoMemory,
}

impl From<NoMemory> for ServeEnd {
    ghost from_gives = { λ _ end. end ≡ no_memory };

    fn from(_error: NoMemory) -> ServeEnd {
        ServeEnd::NoMemory
    }
}

fn frame_buffer(alloc: Global) -> Result<Vec<u8>, NoMemory>
    ensures { IfOk result (λ buf. length buf.items ≡ 2048) }
{
    Ok(vec![in alloc; 0u8; FRAME_ROOM]?)
}

/// Takes turns until the life is over, at most so many.
#[tactic(auto, using(crate::proofs::Causes::cause_after))]
fn take_turns<O: Sink, W: Outside>(
    alloc: Global,
    managed: &[Managed],
    life: Life,
    outside: &mut W,
    out: &mut O,
    turns: u64,
    text: &mut Vec<u8>,
) -> Result<Life, ServeEnd>
    requires orderly { IsOrderly life }
    requires child { KnowsChild life.hooks (W.seen outside.old) }
    requires going { is_over (life_of life) ≡ false }
    ensures child { IfOk result (λ last. KnowsChild last.hooks (W.seen outside.new)) }
    ensures ok { IfOk result
        (λ last. Ends turns managed.now (life_of life) (W.seen outside.old) (O.written out.old) (life_of last)
        (W.seen outside.new) (O.written out.new)) }
    ensures cut { IfErr result
        (λ end. BreaksOff end turns managed.now (life_of life) (W.seen outside.old) (W.seen outside.new)
        (O.written out.old) (O.written out.new)) }
    ensures later { IfOk result
        (λ _. (O.faults out.old ≤ O.faults out.new)
        × ((W.seen outside.old).waiting.faults ≤ (W.seen outside.new).waiting.faults)) }
    ensures cause { IfErr result
        (λ end. HasLifeCause end (O.faults out.old) (O.faults out.new) (W.seen outside.old).waiting.faults
        (W.seen outside.new).waiting.faults) }
    ensures foretold { (W.seen outside.old).waiting.failing ≡ Some [] → result ≢ Err ServeEnd.LinkFault }
    ensures many { result ≡ Err ServeEnd.TurnsOver → AreManyTurns (W.seen outside.old) turns }
    ensures steady { O.never_fails out.old ≡ true → O.faults out.new ≡ O.faults out.old }
    ensures stays { O.never_fails out.new ≡ O.never_fails out.old }
{
    let mut buf = frame_buffer(alloc)?;
    let mut life = life;
    'wakes: for _ in 0..turns {
        match one_turn(alloc, managed, life, outside, out, &mut buf, text)? {
            Woken::Over(last) => return Ok(last),
            Woken::On(next) => life = next,
        }
    }
    Err(ServeEnd::TurnsOver)
}

fn begin<W: Outside>(outside: &mut W) -> Result<Begin, ServeEnd>
    ensures child { IfOk result (λ _. (W.seen outside.new).waiting.child ≡ (W.seen outside.old).waiting.child) }
    ensures ok { IfOk result
        (λ begin. ((W.seen outside.old).waiting.faults ≤ (W.seen outside.new).waiting.faults)
        × BeginsThere (W.seen outside.old) (W.seen outside.new) (Ok begin)) }
    ensures failed { IfErr result (λ end. BeginFails end (W.seen outside.old) (W.seen outside.new)) }
    ensures cause { IfErr result
        (λ end. HasServeCause end 0 0 (W.seen outside.old).waiting.faults (W.seen outside.new).waiting.faults) }
    ensures foretold { (W.seen outside.old).waiting.failing ≡ Some [] → result ≢ Err ServeEnd.LinkFault }
{
    match outside.begin() {
        Ok(begin) => Ok(begin),
        Err(Failed) => Err(ServeEnd::LinkFault),
    }
}

#[tactic(auto, using(crate::proofs::Causes::cause_after, crate::proofs::Causes::life_cause_after))]
fn live_on<O: Sink, W: Outside>(
    alloc: Global,
    managed: &[Managed],
    specs: &[IfSpec],
    outside: &mut W,
    out: &mut O,
    turns: u64,
) -> Result<(), ServeEnd>
    requires managed { AreManaged managed.now }
    requires child { (W.seen outside.old).waiting.child ≡ false }
    ensures ok { IfOk result
        (λ _. Served turns managed.now specs.now (W.seen outside.old) (W.seen outside.new) (O.written out.old)
        (O.written out.new)) }
    ensures cut { IfErr result
        (λ end. Leaves end turns managed.now specs.now (W.seen outside.old) (W.seen outside.new) (O.written out.old)
        (O.written out.new)) }
    ensures later { IfOk result
        (λ _. (O.faults out.old ≤ O.faults out.new)
        × ((W.seen outside.old).waiting.faults ≤ (W.seen outside.new).waiting.faults)) }
    ensures cause { IfErr result
        (λ end. HasLifeCause end (O.faults out.old) (O.faults out.new) (W.seen outside.old).waiting.faults
        (W.seen outside.new).waiting.faults) }
    ensures foretold { (W.seen outside.old).waiting.failing ≡ Some [] → result ≢ Err ServeEnd.LinkFault }
    ensures many { result ≡ Err ServeEnd.TurnsOver → AreManyTurns (W.seen outside.old) turns }
    ensures steady { O.never_fails out.old ≡ true → O.faults out.new ≡ O.faults out.old }
    ensures stays { O.never_fails out.new ≡ O.never_fails out.old }
{
    let start = begin(outside)?;
    let mut text = Vec::new(alloc);
    let life = open(alloc, managed, specs, start, outside, &mut text)?;
    write_all(out, &text)?;
    let last = take_turns(alloc, managed, life, outside, out, turns, &mut text)?;
    close(&last, out, &mut text)?;
    Ok(())
}

/// Runs one life over the devices, from its start line to its end line, with at most so many wakes.
/// `specs` are all interfaces of the host, managed or not. No hook's child may run yet.
pub fn serve<O: Sink, W: Outside>(
    alloc: Global,
    managed: &[Managed],
    specs: &[IfSpec],
    live: &mut W,
    out: &mut O,
    turns: u64,
) -> ServeEnd
    requires managed { AreManaged managed.now }
    requires child { (W.seen live.old).waiting.child ≡ false }
    ensures served { result ≡ ServeEnd.End
        → Served turns managed.now specs.now (W.seen live.old) (W.seen live.new) (O.written out.old)
        (O.written out.new) }
    ensures cut { Leaves result turns managed.now specs.now (W.seen live.old) (W.seen live.new) (O.written out.old)
        (O.written out.new) }
    ensures files { LeavesFiled managed.now specs.now (W.seen live.old) (W.seen live.new) }
    ensures cause { HasEndCause result (O.faults out.old) (O.faults out.new) (W.seen live.old).waiting.faults
        (W.seen live.new).waiting.faults }
    ensures foretold { (W.seen live.old).waiting.failing ≡ Some [] → result ≢ ServeEnd.LinkFault }
    ensures many { result ≡ ServeEnd.TurnsOver → AreManyTurns (W.seen live.old) turns }
    ensures steady { O.never_fails out.old ≡ true → O.faults out.new ≡ O.faults out.old }
    ensures stays { O.never_fails out.new ≡ O.never_fails out.old }
{
    match live_on(alloc, managed, specs, live, out, turns) {
        Ok(()) => ServeEnd::End,
        Err(end) => end,
    }
}
