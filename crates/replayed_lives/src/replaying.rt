//! The work that reads a script, lives its lives and writes their transcript.

ghost use Rattle.std.specs.Prelude.{◌≡◌, ◌≢◌, ◌≤◌, [], true, Err, IfOk, IfErr};
ghost use Rattle.settings.specs.Fitting.{AreManaged};
ghost use Rattle.conf_text.specs.Contents.{configuration};
ghost use Rattle.script_model.specs.Scripts.{FitsScript};
ghost use Rattle.replay_text.specs.ScriptContent as content;
ghost use Rattle.daemon.specs.Streams.{WritesFront, WritesLines};
ghost use Rattle.text_works.specs.Input.{ReadsWithin, input_told};
ghost use Rattle.text_works.specs.SpelledScripts.{managed_in};
ghost use Rattle.replayed_lives.specs.Replays.{transcript};
ghost use Rattle.text_works.specs.Settling.{IsSettled};
ghost use Rattle.text_works.specs.Statuses.{HasStatusCause, StopsWriting, Completes};
ghost use Rattle.replayed_lives.specs.Replaying.{IsReplayed, IsAnswer, TellsScript};

use crate::lives::replay_lives;
use conf_text::notices;
use std::alloc::Global;
use text_works::{Settled, Status, read_all, settle, write_head};
use world::{Sink, Source};

/// Writes the head of a transcript, and then the lives.
#[tactic(auto, using(daemon::proofs::Stretches::lines_then, daemon::proofs::Fronts::front_then, crate::proofs::WholeLife::front_first))]
pub fn write_transcript<O: Sink>(alloc: Global, settled: Settled, out: &mut O) -> Result<(), Status>
    requires managed { AreManaged settled.managed.items }
    requires fits { FitsScript (content.script_of settled.script) }
    requires manages { settled.managed.items
        ≡ managed_in (content.script_of settled.script) (configuration settled.conf) }
    ensures ok { IfOk result
        (λ _. (O.faults out.old ≤ O.faults out.new)
        × WritesLines (O.written out.old) (O.written out.new)
        (transcript (content.script_of settled.script) (configuration settled.conf))) }
    ensures front { IfErr result
        (λ _. WritesFront (O.written out.old) (O.written out.new) []
        (transcript (content.script_of settled.script) (configuration settled.conf))) }
    ensures cause { IfErr result
        (λ status. HasStatusCause status 0 0 (O.faults out.old) (O.faults out.new) × StopsWriting status) }
    ensures steady { O.never_fails out.old ≡ true → O.faults out.new ≡ O.faults out.old }
    ensures stays { O.never_fails out.new ≡ O.never_fails out.old }
{
    let Settled {
        script,
        conf,
        managed,
    } = settled;
    write_head(alloc, &script, notices(&conf), out)?;
    replay_lives(alloc, &managed, script, out)?;
    Ok(())
}

/// Replays the script that the input spells.
#[tactic(auto, using(text_works::proofs::Refusals::settled_fit, crate::proofs::ReplayAnswers::replay_answers, crate::proofs::Replayed::replayed))]
fn replay_input<I: Source, O: Sink>(alloc: Global, input: &mut I, out: &mut O) -> Result<(), Status>
    ensures ok { IfOk result
        (λ _. IsReplayed (I.left input.old) (O.written out.old) (O.written out.new)
        × (I.faults input.old ≤ I.faults input.new) × (O.faults out.old ≤ O.faults out.new)) }
    ensures err { IfErr result (λ status. IsAnswer status (I.left input.old) (O.written out.old) (O.written out.new)) }
    ensures cause { IfErr result
        (λ status. HasStatusCause status (I.faults input.old) (I.faults input.new) (O.faults out.old)
        (O.faults out.new)) }
    ensures not_done { result ≢ Err Status.Done }
    ensures reads { ReadsWithin (input_told (I.left input.old) (I.taken input.old) (I.reads input.old))
        (input_told (I.left input.new) (I.taken input.new) (I.reads input.new)) }
    ensures input_steady { I.never_fails input.old ≡ true → I.faults input.new ≡ I.faults input.old }
    ensures out_steady { O.never_fails out.old ≡ true → O.faults out.new ≡ O.faults out.old }
{
    let bytes = read_all(alloc, input)?;
    let settled = settle(alloc, &bytes)?;
    drop(bytes);
    write_transcript(alloc, settled, out)?;
    Ok(())
}

/// Replays the script that the input spells, and writes its transcript.
pub fn replay<I: Source, O: Sink>(alloc: Global, input: &mut I, out: &mut O) -> Status
    ensures answer { IsAnswer result (I.left input.old) (O.written out.old) (O.written out.new) }
    ensures cause { HasStatusCause result (I.faults input.old) (I.faults input.new) (O.faults out.old)
        (O.faults out.new) }
    ensures complete { TellsScript (I.left input.old) → I.faults input.new ≡ I.faults input.old
        → O.faults out.new ≡ O.faults out.old → Completes result }
    ensures replays { TellsScript (I.left input.old) → I.never_fails input.old ≡ true → O.never_fails out.old ≡ true
        → Completes result }
    ensures reads { ReadsWithin (input_told (I.left input.old) (I.taken input.old) (I.reads input.old))
        (input_told (I.left input.new) (I.taken input.new) (I.reads input.new)) }
{
    match replay_input(alloc, input, out) {
        Ok(()) => Status::Done,
        Err(status) => status,
    }
}
