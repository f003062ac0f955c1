//! A whole transcript, audited in one pass.
ghost use Rattle.std.specs.Prelude.{IfErr, IfOk};
ghost use Rattle.iface_judge.specs.AuditSeats.Tests.{judged_by};
ghost use Rattle.transcript_read.specs.Whole.{IsNoTranscript};
ghost use Rattle.transcript_audit.specs.Saying.{IsAuditedBy};
ghost use Rattle.transcript_audit.specs.Verdicts.{IsJudged};

use crate::judging::Judging;
use crate::verdict::Verdict;
use iface_judge::{IfaceJudge, Judge, all_addresses_are_told};
use std::alloc::Global;
use transcript_read::{TranscriptAnswer, follow_transcript};

/// What judges of this kind say of a transcript, or its first bad line.
fn audited<J: Judge + Drop>(alloc: Global, text: &[u8]) -> Result<Verdict, TranscriptAnswer>
    ensures judged { IfOk result (IsAuditedBy (judged_by J.is_own J.is_shared) text.now) }
    ensures bad { IfErr result (λ answer. IsNoTranscript text.now answer) }
{
    let judging: Judging<J> = follow_transcript(alloc, text)?;
    Ok(judging.verdict())
}

/// Whether each address that a transcript shows on a managed interface has its basis, with the numbers of its lives and
/// turns; or the first address that has none; or, where the text is no transcript, its first bad line. One pass. Of the
/// text nothing is kept but its configuration, the files that a life read, and what tells the basis of addresses.
pub fn audit(alloc: Global, text: &[u8]) -> Result<Verdict, TranscriptAnswer>
    ensures judged { IfOk result (IsJudged text.now) }
    ensures bad { IfErr result (λ answer. IsNoTranscript text.now answer) }
{
    let _size = text.len();
    all_addresses_are_told();
    audited::<IfaceJudge>(alloc, text)
}
