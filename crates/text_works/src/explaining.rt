//! The verdict on a transcript, and after a yes why addresses may be held.
ghost use Rattle.std.specs.Prelude.{◌≡◌, ◌++◌, true, IfOk, IfErr};
ghost use Rattle.audit_reasons.specs.TranscriptAudit.Verdicts.{IsJudged};
ghost use Rattle.audit_reasons.specs.Accounts.{AccountsFor};
ghost use Rattle.audit_reasons.specs.Texts.{lines_text};
ghost use Rattle.text_works.specs.Auditing.{IsAnsweredDuly, IsWhyAnswer, explaining, verdict_text};
ghost use Rattle.text_works.specs.Input.{ReadsWithin, input_told};
ghost use Rattle.text_works.specs.Statuses.{HasStatusCause};
ghost use Rattle.text_works.specs.Works.{MayRefuse};

use crate::auditing::verdict_line;
use crate::status::Status;
use crate::working::{Finding, TextWork, perform};
use audit_reasons::{Account, AuditAnswer, Verdict, a_verdict_is_one, explain, text_of};
use net_types::append_bytes;
use std::alloc::Global;
use world::{NoMemory, Sink, Source};

/// The text of what is said of a transcript.
fn account_text(alloc: Global, account: &Account) -> Result<Vec<u8>, NoMemory>
    ensures { IfOk result
        (λ text. text.items ≡ verdict_text account.now.verdict ++ lines_text account.now.lines.items) }
{
    let mut text = verdict_line(alloc, account.verdict)?;
    append_bytes(&text_of(alloc, &account.lines)?, &mut text)?;
    Ok(text)
}

/// What is said of the transcript that the bytes are.
fn account_of(alloc: Global, bytes: &[u8]) -> Result<Account, Status>
    ensures judged { IfOk result (λ account. IsJudged bytes.now account.verdict) }
    ensures accounts { IfOk result (λ account. AccountsFor bytes.now account.verdict account.lines.items) }
    ensures refused { IfErr result (MayRefuse (explaining.Refuses bytes.now)) }
{
    match explain(alloc, bytes) {
        Ok(account) => Ok(account),
        Err(AuditAnswer::Bad { line }) => Err(Status::Transcript { line }),
        Err(AuditAnswer::NoMemory) => Err(Status::NoMemory),
    }
}

/// `audit why`: the verdict on the transcript that the bytes are, and why it is a yes.
struct WhyWork;

impl TextWork for WhyWork {
    ghost work = { λ _. explaining };

    #[tactic(auto, using(crate::proofs::AuditLaws::says_why, crate::proofs::AuditLaws::says_no_more))]
    fn text_of(&self, alloc: Global, bytes: &[u8]) -> Result<Finding, Status> {
        let account = account_of(alloc, bytes)?;
        let text = account_text(alloc, &account)?;
        match account.verdict {
            Verdict::Yes { .. } => Ok(Finding::good(text)),
            Verdict::No { .. } => Ok(Finding::against(text)),
        }
    }
}

/// Reads a transcript of at most 16,777,216 bytes from the input, and writes a line with the verdict on it; after a yes
/// also one for each address that is shown at the end of a life, with the turns on which it rests.
#[tactic(auto, using(crate::proofs::AuditLaws::explaining_is_decided))]
pub fn explain_transcript<I: Source, O: Sink>(alloc: Global, input: &mut I, out: &mut O) -> Status
    ensures answer { IsWhyAnswer result (I.left input.old) (O.written out.old) (O.written out.new) }
    ensures cause { HasStatusCause result (I.faults input.old) (I.faults input.new) (O.faults out.old)
        (O.faults out.new) }
    ensures complete { I.faults input.new ≡ I.faults input.old → O.faults out.new ≡ O.faults out.old
        → IsAnsweredDuly (I.left input.old) result }
    ensures serves { I.never_fails input.old ≡ true → O.never_fails out.old ≡ true
        → IsAnsweredDuly (I.left input.old) result }
    ensures reads { ReadsWithin (input_told (I.left input.old) (I.taken input.old) (I.reads input.old))
        (input_told (I.left input.new) (I.taken input.new) (I.reads input.new)) }
{
    a_verdict_is_one();
    perform(alloc, &WhyWork, input, out)
}
