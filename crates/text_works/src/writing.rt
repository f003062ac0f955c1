//! Writing to a stream, a few lines in one call.
ghost use Rattle.std.specs.Prelude.{◌≡◌, ◌≤◌, [], ◌∷◌, true, map, IfOk, IfErr};
ghost use Rattle.conf_text.specs.Contents.{notice_content};
ghost use Rattle.script_model.specs.Lines as lines;
ghost use Rattle.replay_text.specs.ScriptContent as content;
ghost use Rattle.daemon.specs.Streams.{WritesFront};
ghost use Rattle.daemon.specs.Streams.{WritesLines};
ghost use Rattle.daemon.specs.Streams.{WritesBytes, WritesSome};
ghost use Rattle.text_works.specs.Heads.{head_lines};
ghost use Rattle.text_works.specs.Heads.{live_head};
ghost use Rattle.text_works.specs.Statuses.{HasStatusCause, StopsWriting};

use crate::heads::{Start, say, say_head, say_live_head};
use crate::status::Status;
use conf_text::Notice;
use replay_text::Script;
use std::alloc::Global;
use transcript_text::TranscriptLine;
use world::{DeviceAnswer, Sink};

/// Writes a text in one call.
pub fn write_text<O: Sink>(out: &mut O, text: &[u8]) -> Result<(), Status>
    ensures ok { IfOk result
        (λ _. (O.faults out.old ≤ O.faults out.new)
        × WritesBytes (O.written out.old) (O.written out.new) text.now) }
    ensures some { IfErr result (λ _. WritesSome (O.written out.old) (O.written out.new) text.now) }
    ensures cause { IfErr result
        (λ status. HasStatusCause status 0 0 (O.faults out.old) (O.faults out.new) × StopsWriting status) }
    ensures steady { O.never_fails out.old ≡ true → O.faults out.new ≡ O.faults out.old }
    ensures stays { O.never_fails out.new ≡ O.never_fails out.old }
{
    match out.write(text) {
        Ok(()) => Ok(()),
        Err(DeviceAnswer::Failed) => Err(Status::WriteFault),
        Err(DeviceAnswer::NoMemory) => Err(Status::NoMemory),
    }
}

/// Writes the head of a script's transcript.
#[tactic(auto, using(daemon::proofs::Stretches::text_written, daemon::proofs::CutOffs::front_some, daemon::proofs::CutOffs::front_none))]
pub fn write_head<O: Sink>(
    alloc: Global,
    script: &Script,
    notices: &[Notice],
    out: &mut O,
) -> Result<(), Status>
    ensures ok { IfOk result
        (λ _. (O.faults out.old ≤ O.faults out.new)
        × WritesLines (O.written out.old) (O.written out.new)
        (head_lines (content.script_of script.now) (map notice_content notices.now))) }
    ensures front { IfErr result
        (λ _. WritesFront (O.written out.old) (O.written out.new) []
        (head_lines (content.script_of script.now) (map notice_content notices.now))) }
    ensures cause { IfErr result
        (λ status. HasStatusCause status 0 0 (O.faults out.old) (O.faults out.new) × StopsWriting status) }
    ensures steady { O.never_fails out.old ≡ true → O.faults out.new ≡ O.faults out.old }
    ensures stays { O.never_fails out.new ≡ O.never_fails out.old }
{
    let mut text = Vec::new(alloc);
    say_head(script, notices, &mut text)?;
    write_text(out, &text)?;
    Ok(())
}

/// Writes the line that begins a life, by its number from 1.
#[tactic(auto, using(daemon::proofs::Stretches::text_written, daemon::proofs::CutOffs::front_some, daemon::proofs::CutOffs::front_none))]
pub fn begin_life<O: Sink>(alloc: Global, number: u64, out: &mut O) -> Result<(), Status>
    ensures ok { IfOk result
        (λ _. (O.faults out.old ≤ O.faults out.new)
        × WritesLines (O.written out.old) (O.written out.new) (lines.Life number ∷ [])) }
    ensures front { IfErr result
        (λ _. WritesFront (O.written out.old) (O.written out.new) [] (lines.Life number ∷ [])) }
    ensures cause { IfErr result
        (λ status. HasStatusCause status 0 0 (O.faults out.old) (O.faults out.new) × StopsWriting status) }
    ensures steady { O.never_fails out.old ≡ true → O.faults out.new ≡ O.faults out.old }
    ensures stays { O.never_fails out.new ≡ O.never_fails out.old }
{
    let mut text = Vec::new(alloc);
    say(&TranscriptLine::Life(number), &mut text)?;
    write_text(out, &text)?;
    Ok(())
}

/// Writes the lines before the one life of `live`, in one call.
#[tactic(auto, using(daemon::proofs::Stretches::text_written, daemon::proofs::CutOffs::front_some, daemon::proofs::CutOffs::front_none))]
pub fn write_live_head<O: Sink>(alloc: Global, start: &Start<'_>, out: &mut O) -> Result<(), Status>
    ensures ok { IfOk result
        (λ _. (O.faults out.old ≤ O.faults out.new) × WritesLines (O.written out.old) (O.written out.new)
        (live_head start.now.text.now (map notice_content start.now.notices.now) start.now.specs.now)) }
    ensures front { IfErr result
        (λ _. WritesFront (O.written out.old) (O.written out.new) []
        (live_head start.now.text.now (map notice_content start.now.notices.now) start.now.specs.now)) }
    ensures cause { IfErr result
        (λ status. HasStatusCause status 0 0 (O.faults out.old) (O.faults out.new) × StopsWriting status) }
    ensures steady { O.never_fails out.old ≡ true → O.faults out.new ≡ O.faults out.old }
    ensures stays { O.never_fails out.new ≡ O.never_fails out.old }
{
    let mut text = Vec::new(alloc);
    say_live_head(start, &mut text)?;
    write_text(out, &text)?;
    Ok(())
}
