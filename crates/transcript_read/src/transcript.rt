//! A whole transcript, read in one pass.
ghost use Rattle.std.specs.Prelude.{IfErr, IfOk, Ok, map};
ghost use Rattle.net_types.specs.TextLines.{AreLines};
ghost use Rattle.conf_text.specs.Configurations.{IsConfOf};
ghost use Rattle.conf_text.specs.Contents.{configuration};
ghost use Rattle.transcript_read.specs.Following.{IsRead, Reaches};
ghost use Rattle.transcript_read.specs.Heads.{Comes, IsFaulty, SpellsConfigured, SpellsNoticed, HaltsBy, end_of_body, end_of_told, notice_words};
ghost use Rattle.transcript_read.specs.Whole.{IsFollowedWhole, IsNoTranscript, TranscriptsAreOne};

use crate::answers::TranscriptAnswer;
use crate::body::{BodyAnswer, follow_body};
use crate::follower::Follower;
use crate::head::{after_notices, conf_lines};
use conf_laws::configuration_is_one;
use conf_text::{Conf, ConfAnswer, notices, read_conf};
use net_types::split_at_byte;
use std::alloc::Global;
use transcript_lines::a_text_spells_one_line;

/// The first line of a transcript.
const FIRST_LINE: &[u8] = b"dhcpcd-transcript 1";

/// The configuration of lines, or the first of them that is at fault. Where that is past the greatest number that a
/// fault can tell, the text is too long to be held.
fn conf_of(alloc: Global, text: &[u8]) -> Result<Conf, TranscriptAnswer>
    ensures found { IfOk result (λ conf. IsConfOf text.now (Ok (configuration conf))) }
    ensures bad { IfErr result (λ answer. IsFaulty text.now answer) }
{
    match read_conf(alloc, text) {
        Ok(conf) => Ok(conf),
        Err(ConfAnswer::Bad(fault)) => {
            if fault.line < u32::MAX {
                Err(TranscriptAnswer::Bad {
                    line: u64::from(fault.line),
                })
            } else {
                Err(TranscriptAnswer::NoMemory)
            }
        }
        Err(ConfAnswer::NoMemory) => Err(TranscriptAnswer::NoMemory),
    }
}

/// Follows what stands after the lines of the configuration.
fn follow_noticed<F: Follower + Drop>(
    alloc: Global,
    conf: Conf,
    text: &[u8],
) -> Result<F, TranscriptAnswer>
    requires { IsRead (configuration conf) }
    ensures found { IfOk result
        (Reaches F.Tells (Comes (SpellsNoticed (configuration conf).notices)
        (end_of_body F.first F.after (configuration conf)) text.now)) }
    ensures bad { IfErr result
        (λ answer. AreLines (map notice_words (configuration conf).notices)
        → HaltsBy (SpellsNoticed (configuration conf).notices) text.now answer) }
{
    a_text_spells_one_line();
    let (rest, line) = match after_notices(alloc, notices(&conf), text) {
        Ok(after) => after,
        Err(answer) => return Err(answer),
    };
    let follower = F::begin(alloc, conf)?;
    match follow_body(alloc, follower, rest) {
        Ok(end) => Ok(end),
        Err(BodyAnswer::Bad { line: further }) => Err(TranscriptAnswer::Bad {
            line: line - 1 + further,
        }),
        Err(BodyAnswer::NoMemory) => Err(TranscriptAnswer::NoMemory),
    }
}

/// Follows what stands after the first line.
fn follow_configured<F: Follower + Drop>(alloc: Global, text: &[u8]) -> Result<F, TranscriptAnswer>
    ensures found { IfOk result (Reaches F.Tells (Comes SpellsConfigured (end_of_told F.first F.after) text.now)) }
    ensures bad { IfErr result (λ answer. HaltsBy SpellsConfigured text.now answer) }
{
    let lines = conf_lines(alloc, text)?;
    a_text_spells_one_line();
    configuration_is_one();
    let conf = match conf_of(alloc, &lines.text) {
        Ok(conf) => conf,
        Err(answer) => return Err(answer),
    };
    match follow_noticed(alloc, conf, lines.rest) {
        Ok(end) => Ok(end),
        Err(TranscriptAnswer::Bad { line }) => Err(TranscriptAnswer::Bad {
            line: lines.line - 1 + line,
        }),
        Err(TranscriptAnswer::NoMemory) => Err(TranscriptAnswer::NoMemory),
    }
}

/// What goes through the lines of a transcript, after all of them; or the first bad line. One pass; beside what goes
/// through, the configuration is kept, and what `follow_body` keeps.
pub fn follow_transcript<F: Follower + Drop>(
    alloc: Global,
    text: &[u8],
) -> Result<F, TranscriptAnswer>
    ensures found { IfOk result (Reaches F.Tells (IsFollowedWhole F.first F.after text.now)) }
    ensures bad { IfErr result (λ answer. IsNoTranscript text.now answer) }
{
    a_text_spells_one_line();
    let Some((first, rest)) = split_at_byte(text, b'\n') else {
        return Err(TranscriptAnswer::Bad { line: 1 });
    };
    if first != FIRST_LINE {
        return Err(TranscriptAnswer::Bad { line: 1 });
    }
    match follow_configured(alloc, rest) {
        Ok(end) => Ok(end),
        Err(TranscriptAnswer::Bad { line }) => Err(TranscriptAnswer::Bad { line: line + 1 }),
        Err(TranscriptAnswer::NoMemory) => Err(TranscriptAnswer::NoMemory),
    }
}

/// A text is one transcript at most.
pub fn a_text_is_one_transcript()
    ensures { TranscriptsAreOne }
{
    a_text_spells_one_line();
    configuration_is_one();
}
