//! The words of the line `hook`, read.
ghost use Rattle.std.specs.Prelude.{◌≡◌};
ghost use Rattle.script_lines.specs.PollReading.{lone_answer_at, ended_at, poll_at};

use net_types::{end_of, number_of, strip_word};
use world::Poll;

/// One more than the largest status that a hook's child ends with.
const STATUS_LIMIT: u64 = 256;

fn lone_answer_of(bytes: &[u8], answer: Option<Poll>) -> Option<Option<Poll>>
    ensures { result ≡ lone_answer_at answer bytes.now }
{
    end_of(bytes)?;
    Some(answer)
}

fn ended_of(bytes: &[u8]) -> Option<Option<Poll>>
    ensures { result ≡ ended_at bytes.now }
{
    let status = number_of(bytes, STATUS_LIMIT)?;
    Some(Some(Poll::Ended(status as u32)))
}

/// What a poll answers, `None` within for one that fails.
#[tactic(auto, unfolding(crate::specs::PollReading::poll_at))]
pub fn poll_of(bytes: &[u8]) -> Option<Option<Poll>>
    ensures { result ≡ poll_at bytes.now }
{
    if let Some(rest) = strip_word(bytes, b"run") {
        return lone_answer_of(rest, Some(Poll::Running));
    }
    if let Some(rest) = strip_word(bytes, b"ended ") {
        return ended_of(rest);
    }
    match strip_word(bytes, b"failed") {
        Some(rest) => lone_answer_of(rest, None),
        None => None,
    }
}
