//! The verdict on a transcript.
ghost use Rattle.std.specs.Prelude.{◌≡◌, Some, true, IfOk, IfErr};
ghost use Rattle.audit_reasons.specs.TranscriptAudit.Verdicts.{IsJudged};
ghost use Rattle.text_works.specs.Auditing.{IsAnsweredDuly, IsAuditAnswer, auditing, verdict_text};
ghost use Rattle.text_works.specs.Input.{ReadsWithin, input_told};
ghost use Rattle.text_works.specs.Statuses.{HasStatusCause};
ghost use Rattle.text_works.specs.Works.{MayRefuse};

use crate::status::Status;
use crate::working::{Finding, TextWork, perform};
use audit_reasons::{AuditAnswer, Verdict, a_verdict_is_one, audit};
use std::alloc::Global;
use std::fmt;
use std::fmt::Display;
use world::{NoMemory, Sink, Source};

/// A verdict as the line that says it.
#[derive(Clone, Copy)]
struct VerdictLine(Verdict);

impl Display for VerdictLine {
    ghost output = { λ line. Some (verdict_text line.0) };

    fn fmt<W: fmt::Write>(&self, f: &mut fmt::Formatter<W>) -> fmt::Result {
        match self.0 {
            Verdict::Yes { lives, turns } => write!(f, "yes {lives} {turns}\n"),
            Verdict::No { life, turn, row } => write!(f, "no {life} {turn} {row}\n"),
        }
    }
}

/// The line that says a verdict.
pub fn verdict_line(alloc: Global, verdict: Verdict) -> Result<Vec<u8>, NoMemory>
    ensures { IfOk result (λ text. text.items ≡ verdict_text verdict) }
{
    let line = String::format(alloc, VerdictLine(verdict))?;
    Ok(line.into_bytes())
}

/// Judges the transcript that the bytes are.
fn verdict_of(alloc: Global, bytes: &[u8]) -> Result<Verdict, Status>
    ensures judged { IfOk result (IsJudged bytes.now) }
    ensures refused { IfErr result (MayRefuse (auditing.Refuses bytes.now)) }
{
    match audit(alloc, bytes) {
        Ok(verdict) => Ok(verdict),
        Err(AuditAnswer::Bad { line }) => Err(Status::Transcript { line }),
        Err(AuditAnswer::NoMemory) => Err(Status::NoMemory),
    }
}

/// `audit`: the verdict on the transcript that the bytes are.
pub struct AuditWork;

impl TextWork for AuditWork {
    ghost work = { λ _. auditing };

    #[tactic(auto, using(crate::proofs::AuditLaws::says_yes, crate::proofs::AuditLaws::says_no))]
    fn text_of(&self, alloc: Global, bytes: &[u8]) -> Result<Finding, Status> {
        let verdict = verdict_of(alloc, bytes)?;
        let line = verdict_line(alloc, verdict)?;
        match verdict {
            Verdict::Yes { .. } => Ok(Finding::good(line)),
            Verdict::No { .. } => Ok(Finding::against(line)),
        }
    }
}

/// Reads a transcript of at most 16,777,216 bytes from the input, and writes a line with the verdict on it.
#[tactic(auto, using(crate::proofs::AuditLaws::auditing_is_decided, crate::proofs::AuditLaws::answered_duly))]
pub fn audit_transcript<I: Source, O: Sink>(alloc: Global, input: &mut I, out: &mut O) -> Status
    ensures answer { IsAuditAnswer result (I.left input.old) (O.written out.old) (O.written out.new) }
    ensures cause { HasStatusCause result (I.faults input.old) (I.faults input.new) (O.faults out.old)
        (O.faults out.new) }
    ensures complete { I.faults input.new ≡ I.faults input.old → O.faults out.new ≡ O.faults out.old
        → IsAnsweredDuly (I.left input.old) result }
    ensures serves { I.never_fails input.old ≡ true → O.never_fails out.old ≡ true
        → IsAnsweredDuly (I.left input.old) result }
    ensures reads { ReadsWithin (input_told (I.left input.old) (I.taken input.old) (I.reads input.old))
        (input_told (I.left input.new) (I.taken input.new) (I.reads input.new)) }
{
    a_verdict_is_one();
    perform(alloc, &AuditWork, input, out)
}
