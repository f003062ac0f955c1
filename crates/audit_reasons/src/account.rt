//! The verdict on a transcript, and why it is a yes.
ghost use Rattle.std.specs.Prelude.{◌≡◌, ◌++◌, IfErr, IfOk};
ghost use Rattle.row_reasons.specs.TranscriptAudit.Verdicts.{IsJudged};
ghost use Rattle.transcript_read.specs.Whole.{IsNoTranscript};
ghost use Rattle.row_reasons.specs.Texts.{line_text, lines_text};
ghost use Rattle.audit_reasons.specs.Accounts.{AccountsFor};
ghost use Rattle.audit_reasons.specs.Saying.{IsSaidOf};

use crate::explainer::Explainer;
use net_types::{NoMemory, append_bytes};
use row_reasons::{AuditAnswer, BasisLine, Verdict, audit, found_bases_are_shown};
use std::alloc::Global;
use transcript_read::{a_text_is_one_transcript, follow_transcript};

/// What is said of a transcript, and of each address that its lives show at their end, after a yes.
#[derive(Drop)]
pub struct Account {
    pub verdict: Verdict,
    pub lines: Vec<BasisLine>,
}

/// The lines on the lives of a transcript.
fn lines_of(alloc: Global, text: &[u8]) -> Result<Vec<BasisLine>, AuditAnswer>
    ensures said { IfOk result (λ lines. IsSaidOf text.now lines.items) }
    ensures bad { IfErr result (λ answer. IsNoTranscript text.now answer) }
{
    let explainer: Explainer = follow_transcript(alloc, text)?;
    Ok(explainer.lines)
}

/// The verdict on a transcript, and after a yes why each address that is shown of a managed interface after the last
/// judged turn of a life may be held. Two passes. Of the text no more is kept than the turns of one life beside what
/// `audit` keeps.
pub fn explain(alloc: Global, text: &[u8]) -> Result<Account, AuditAnswer>
    ensures judged { IfOk result (λ account. IsJudged text.now account.verdict) }
    ensures accounts { IfOk result (λ account. AccountsFor text.now account.verdict account.lines.items) }
    ensures bad { IfErr result (λ answer. IsNoTranscript text.now answer) }
{
    a_text_is_one_transcript();
    found_bases_are_shown();
    let verdict = audit(alloc, text)?;
    match verdict {
        Verdict::Yes { .. } => Ok(Account {
            verdict,
            lines: lines_of(alloc, text)?,
        }),
        Verdict::No { .. } => Ok(Account {
            verdict,
            lines: Vec::new(alloc),
        }),
    }
}

/// Appends the text of a line.
fn append_line(alloc: Global, line: BasisLine, into: &mut Vec<u8>) -> Result<(), NoMemory>
    ensures { IfOk result (λ _. into.new.items ≡ into.old.items ++ line_text line) }
{
    let text = String::format(alloc, line)?;
    append_bytes(text.as_bytes(), into)
}

/// The text of lines.
pub fn text_of(alloc: Global, lines: &[BasisLine]) -> Result<Vec<u8>, NoMemory>
    ensures { IfOk result (λ text. text.items ≡ lines_text lines.now) }
{
    let mut text = Vec::new(alloc);
    'lines: for line in lines {
        append_line(alloc, *line, &mut text)?;
    }
    Ok(text)
}
