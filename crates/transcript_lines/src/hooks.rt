//! The lines of hook jobs, read.
ghost use Rattle.std.specs.Prelude.{◌≡◌, option_map};
ghost use Rattle.transcript_text.specs.LineFields.{job_field, poll_field};
ghost use Rattle.transcript_lines.specs.Contents.{line_of};
ghost use Rattle.transcript_lines.specs.LineReading.{dropped_at, polled_at, started_at, variable_at};

use crate::fields::{
    count_field_of, iface_name_of, index_of, outcome_of, reason_field_of, split_at_last,
    variable_name_of, variable_value_of,
};
use crate::lines::ToldLine;
use net_types::{split_at_byte, strip_word};
use world::{Poll, Reason};

/// What a poll said; `Some(None)` where it failed.
fn poll_of(bytes: &[u8]) -> Option<Option<Poll>>
    ensures { result ≡ poll_field.at bytes.now }
{
    if bytes == b"run".as_slice() {
        return Some(Some(Poll::Running));
    }
    if bytes == b"failed".as_slice() {
        return Some(None);
    }
    let rest = strip_word(bytes, b"ended ")?;
    let status = index_of(rest)?;
    Some(Some(Poll::Ended(status)))
}

/// What a poll of a job's child said.
pub fn polled_of<'a>(bytes: &'a [u8]) -> Option<ToldLine<'a>>
    ensures { option_map line_of result ≡ polled_at bytes.now }
{
    let (number, rest) = count_field_of(bytes)?;
    let answer = poll_of(rest)?;
    Some(ToldLine::HookPolled { number, answer })
}

/// Which job, why it runs and on which interface.
fn job_of(bytes: &[u8]) -> Option<(u64, (Reason, &[u8]))>
    ensures { option_map (λ p. (p.0, (p.1.0, p.1.1.now))) result ≡ job_field.at bytes.now }
{
    let (number, rest) = count_field_of(bytes)?;
    let (reason, rest) = reason_field_of(rest)?;
    let name = iface_name_of(rest)?;
    Some((number, (reason, name)))
}

/// A job that was dropped.
pub fn dropped_of<'a>(bytes: &'a [u8]) -> Option<ToldLine<'a>>
    ensures { option_map line_of result ≡ dropped_at bytes.now }
{
    let (number, (reason, name)) = job_of(bytes)?;
    Some(ToldLine::HookDropped {
        number,
        reason,
        name,
    })
}

/// A job that was started.
pub fn started_of<'a>(bytes: &'a [u8]) -> Option<ToldLine<'a>>
    ensures { option_map line_of result ≡ started_at bytes.now }
{
    let (job, outcome) = split_at_last(bytes, b' ')?;
    let (number, (reason, name)) = job_of(job)?;
    let done = outcome_of(outcome)?;
    Some(ToldLine::HookStarted {
        number,
        reason,
        name,
        done,
    })
}

/// A variable of the job.
pub fn variable_of<'a>(bytes: &'a [u8]) -> Option<ToldLine<'a>>
    ensures { option_map line_of result ≡ variable_at bytes.now }
{
    let (name, value) = split_at_byte(bytes, b'=')?;
    let name = variable_name_of(name)?;
    let value = variable_value_of(value)?;
    if name.is_empty() {
        None
    } else {
        Some(ToldLine::Variable { name, value })
    }
}
