//! The head of a transcript: its first line, the lines of a configuration, and the notices of that configuration.
ghost use Rattle.std.specs.Prelude.{◌≡◌, IfErr, IfOk, bytes_eq, map, option_map};
ghost use Rattle.conf_text.specs.Contents.{notice_content};
ghost use Rattle.transcript_read.specs.Heads.{AreConfLines, AreNoticed, LacksNotice, conf_line_at, notice_words};

use crate::answers::TranscriptAnswer;
use conf_text::Notice;
use net_types::{NoMemory, append_number, split_at_byte, strip_word};
use std::alloc::Global;

/// The lines of a configuration in front of a text.
#[derive(Drop)]
pub struct ConfLines<'a> {
    /// Each with its line feed, without what marks it.
    pub text: Vec<u8>,
    /// The number of the line after them, from 1.
    pub line: u64,
    /// What stands after them.
    pub rest: &'a [u8],
}

/// A line of a configuration in front of the text, without what marks it, and what stands after it.
#[tactic(auto, unfolding(crate::specs::Heads::conf_line_at))]
fn conf_line(text: &[u8]) -> Option<(&[u8], &[u8])>
    ensures { option_map (λ p. (p.0.now, p.1.now)) result ≡ conf_line_at text.now }
{
    let (words, others) = split_at_byte(text, b'\n')?;
    let said = strip_word(words, b"c:")?;
    Some((said, others))
}

/// The lines in front of the text that are marked as those of a configuration.
#[tactic(auto, using(crate::proofs::HeadLaws::conf_more, crate::proofs::HeadLaws::conf_smaller))]
pub fn conf_lines<'a>(alloc: Global, text: &'a [u8]) -> Result<ConfLines<'a>, NoMemory>
    ensures { IfOk result (λ lines. AreConfLines text.now lines.text.items lines.rest.now lines.line) }
{
    let mut conf = Vec::new(alloc);
    let mut rest = text;
    let mut line: u64 = 1;
    let _size = text.len();
    'lines: while let Some((said, others)) = conf_line(rest) {
        conf.extend_from_slice(said)?;
        conf.push(b'\n')?;
        rest = others;
        line += 1;
    }
    Ok(ConfLines {
        text: conf,
        line,
        rest,
    })
}

/// Whether the words are those of the line of a notice.
#[tactic(auto, unfolding(script_model::specs::Lines::line_words))]
fn is_notice(alloc: Global, notice: &Notice, words: &[u8]) -> Result<bool, NoMemory>
    ensures { IfOk result (λ same. same ≡ bytes_eq words.now (notice_words (notice_content notice.now))) }
{
    let mut due = Vec::new(alloc);
    due.extend_from_slice(b"notice ")?;
    append_number(u64::from(notice.line), &mut due)?;
    due.push(b' ')?;
    due.extend_from_slice(notice.word.as_bytes())?;
    Ok(words == due.as_slice())
}

/// What stands after the lines of the notices, which stand in front of the text, and the number of the line there.
pub fn after_notices<'a>(
    alloc: Global,
    notices: &[Notice],
    text: &'a [u8],
) -> Result<(&'a [u8], u64), TranscriptAnswer>
    ensures found { IfOk result (λ after. AreNoticed (map notice_content notices.now) text.now after.0.now after.1) }
    ensures bad { IfErr result (λ answer. LacksNotice (map notice_content notices.now) text.now answer) }
{
    let mut left = notices;
    let mut rest = text;
    let mut line: u64 = 1;
    let _size = text.len();
    'notices: while let Some((notice, others)) = left.split_first() {
        let Some((words, after)) = split_at_byte(rest, b'\n') else {
            return Err(TranscriptAnswer::Bad { line });
        };
        if !is_notice(alloc, notice, words)? {
            return Err(TranscriptAnswer::Bad { line });
        }
        left = others;
        rest = after;
        line += 1;
    }
    Ok((rest, line))
}
