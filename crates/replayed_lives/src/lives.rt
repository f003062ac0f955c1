//! The lives of a script, one after another over the same host and store.
ghost use Rattle.std.specs.Prelude.{◌≡◌, ◌≤◌, ◌<◌, ◌+◌, ◌^◌, [], ◌∷◌, true, false, IfOk, IfErr, All};
ghost use Rattle.settings.specs.Fitting.{AreManaged};
ghost use Rattle.script_model.specs.Scripts.{FitsScript};
ghost use Rattle.replay_text.specs.ScriptContent as content;
ghost use Rattle.daemon.specs.Streams.{WritesFront, WritesLines};
ghost use Rattle.replayed_lives.specs.Carried.{between_in, failing_with, life_over};
ghost use Rattle.replayed_lives.specs.Replays.{after_life, lines_in, lives_of_script};
ghost use Rattle.text_works.specs.Statuses.{HasStatusCause, StopsWriting};

use crate::memory::{Between, Memory, at_first, devices, leave, left, numbers_of};
use daemon::{ServeEnd, serve};
use net_types::IfSpec;
use replay_text::{LifeLines, Script};
use script_model::FailDevice;
use settings::Managed;
use std::alloc::Global;
use text_works::{Status, begin_life};
use world::Sink;

/// Lives a life over the devices that the life before left, writes its lines, and gives what it leaves to the next one.
/// `specs` are all interfaces of the host, managed or not, and `sends` the sends that fail.
fn replay_life<O: Sink>(
    alloc: Global,
    managed: &[Managed],
    specs: &[IfSpec],
    sends: &[u64],
    between: Between,
    life: LifeLines,
    out: &mut O,
) -> Result<Between, Status>
    requires managed { AreManaged managed.now }
    requires few { between.lives + 1 < 2 ^ 64 }
    requires childless { between.hooks.running ≡ false }
    ensures ok { IfOk result
        (λ _. (O.faults out.old ≤ O.faults out.new)
        × WritesLines (O.written out.old) (O.written out.new)
        (life_over managed.now specs.now sends.now between (content.life_of life))) }
    ensures left { IfOk result
        (λ next. between_in next
        ≡ after_life managed.now specs.now (failing_with sends.now between) (between_in between)
        (content.life_of life)) }
    ensures failing { IfOk result (λ next. failing_with sends.now next ≡ failing_with sends.now between) }
    ensures childless { IfOk result (λ next. next.hooks.running ≡ false) }
    ensures front { IfErr result
        (λ _. WritesFront (O.written out.old) (O.written out.new) []
        (life_over managed.now specs.now sends.now between (content.life_of life))) }
    ensures cause { IfErr result
        (λ status. HasStatusCause status 0 0 (O.faults out.old) (O.faults out.new) × StopsWriting status) }
    ensures steady { O.never_fails out.old ≡ true → O.faults out.new ≡ O.faults out.old }
    ensures stays { O.never_fails out.new ≡ O.never_fails out.old }
{
    let number = between.lives + 1;
    begin_life(alloc, number, out)?;
    let turns = life.turns.len() as u64 + 1;
    let crash = life.crash;
    let mut live = devices(alloc, between, sends, life)?;
    match serve(alloc, managed, specs, &mut live, out, turns) {
        ServeEnd::End => Ok(left(number, live, crash)?),
        ServeEnd::WriteFault => Err(Status::WriteFault),
        ServeEnd::NoMemory => Err(Status::NoMemory),
        ServeEnd::LinkFault => unreachable!(),
        ServeEnd::TurnsOver => unreachable!(),
    }
}

/// Lives the lives of a script, and writes their lines.
pub fn replay_lives<O: Sink>(
    alloc: Global,
    managed: &[Managed],
    script: Script,
    out: &mut O,
) -> Result<(), Status>
    requires managed { AreManaged managed.now }
    requires fits { FitsScript (content.script_of script) }
    ensures ok { IfOk result
        (λ _. (O.faults out.old ≤ O.faults out.new)
        × WritesLines (O.written out.old) (O.written out.new)
        (lives_of_script managed.now (content.script_of script))) }
    ensures front { IfErr result
        (λ _. WritesFront (O.written out.old) (O.written out.new) []
        (lives_of_script managed.now (content.script_of script))) }
    ensures cause { IfErr result
        (λ status. HasStatusCause status 0 0 (O.faults out.old) (O.faults out.new) × StopsWriting status) }
    ensures steady { O.never_fails out.old ≡ true → O.faults out.new ≡ O.faults out.old }
    ensures stays { O.never_fails out.new ≡ O.never_fails out.old }
{
    let Script {
        conf: _,
        ifaces,
        rows,
        files,
        fails,
        polls,
        lives,
    } = script;
    let sends = numbers_of(alloc, FailDevice::Link, &fails)?;
    let mut between = at_first(alloc, rows, files, &polls, &fails)?;
    'lives: for life in lives {
        between = replay_life(alloc, managed, &ifaces, &sends, between, life, out)?;
    }
    leave(between);
    Ok(())
}
