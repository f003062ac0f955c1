//! A script of the program's own, lived in memory, and the summary of its transcript.
ghost use Rattle.std.specs.Prelude.{◌≡◌, ◌≢◌, ◌≤◌, true, Err, IfOk, IfErr};
ghost use Rattle.daemon.specs.Streams.{WritesBytes};
ghost use Rattle.dhcpcd.specs.Making.{IsMadeAnswer, IsMade, IsMadeTranscript};
ghost use Rattle.replayed_lives.specs.TextWorks.Statuses.{HasStatusCause, Completes};
ghost use Rattle.made_script.specs.MadeLines.{made_lines};
ghost use Rattle.replayed_lives.specs.TextWorks.Settling.{IsSettledAs};

use made_script::made_script;
use replayed_lives::{Settled, Status, settle_script, write_text, write_transcript};
use std::alloc::Global;
use transcript_summary::summary;
use world::Sink;
use world_mem::MemSink;

/// The script of so many rounds with its configuration, which has no fault.
#[tactic(auto, using(crate::proofs::MakeAnswers::made_settled))]
fn made_settled(alloc: Global, rounds: u64) -> Result<Settled, Status>
    requires some { 1 ≤ rounds }
    requires few { rounds ≤ 100 }
    ensures found { IfOk result (IsSettledAs (made_lines rounds)) }
    ensures wants { IfErr result (λ status. status ≡ Status.NoMemory) }
{
    let script = made_script(alloc, rounds)?;
    settle_script(alloc, script)
}

/// The transcript of the script of so many rounds. Memory never refuses a write.
#[tactic(auto, using(crate::proofs::MakeAnswers::made_lives))]
fn made_transcript(alloc: Global, rounds: u64) -> Result<MemSink, Status>
    requires some { 1 ≤ rounds }
    requires few { rounds ≤ 100 }
    ensures found { IfOk result (λ sink. IsMadeTranscript rounds sink.written) }
    ensures wants { IfErr result (λ status. status ≡ Status.NoMemory) }
{
    let settled = made_settled(alloc, rounds)?;
    let mut transcript = MemSink::new(alloc, Vec::new(alloc));
    write_transcript(alloc, settled, &mut transcript)?;
    Ok(transcript)
}

/// Writes the summary of the transcript of so many rounds.
#[tactic(auto, using(crate::proofs::MakeAnswers::unwritten_answer, crate::proofs::MakeAnswers::stopped_make))]
fn make_summary<O: Sink>(alloc: Global, rounds: u64, out: &mut O) -> Result<(), Status>
    requires some { 1 ≤ rounds }
    requires few { rounds ≤ 100 }
    ensures ok { IfOk result
        (λ _. IsMade (WritesBytes (O.written out.old) (O.written out.new)) rounds
        × (O.faults out.old ≤ O.faults out.new)) }
    ensures err { IfErr result (λ status. IsMadeAnswer status rounds (O.written out.old) (O.written out.new)) }
    ensures cause { IfErr result (λ status. HasStatusCause status 0 0 (O.faults out.old) (O.faults out.new)) }
    ensures not_done { result ≢ Err Status.Done }
    ensures steady { O.never_fails out.old ≡ true → O.faults out.new ≡ O.faults out.old }
{
    let transcript = made_transcript(alloc, rounds)?;
    let said = summary(alloc, rounds, transcript.bytes())?;
    write_text(out, &said)?;
    Ok(())
}

/// Lives a script of so many rounds in memory, and writes how many lines of each kind its transcript has.
#[tactic(auto, using(crate::proofs::MakeAnswers::make_completes))]
pub fn make<O: Sink>(alloc: Global, rounds: u64, out: &mut O) -> Status
    requires some { 1 ≤ rounds }
    requires few { rounds ≤ 100 }
    ensures answer { IsMadeAnswer result rounds (O.written out.old) (O.written out.new) }
    ensures cause { HasStatusCause result 0 0 (O.faults out.old) (O.faults out.new) }
    ensures complete { O.faults out.new ≡ O.faults out.old → Completes result }
    ensures makes { O.never_fails out.old ≡ true → Completes result }
{
    match make_summary(alloc, rounds, out) {
        Ok(()) => Status::Done,
        Err(status) => status,
    }
}
