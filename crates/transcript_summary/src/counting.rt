//! How many lines of each counted kind a transcript has, written out as its summary.

ghost use Rattle.std.specs.Prelude.{◌≡◌, ◌++◌, ◌≤◌, length, map, OnOk, IfOk};
ghost use Rattle.transcript_summary.specs.Summaries.{lines_of, counted, numbered_line, summary_of, summary};

use itoa::Buffer;
use net_types::NoMemory;
use std::alloc::{AllocError, Global};

/// The lines of a text, and what follows the last line feed.
fn lines_of(alloc: Global, text: &[u8]) -> Result<Vec<&[u8]>, AllocError>
    ensures { IfOk result (λ lines. map (λ line. line.now) lines.items ≡ lines_of text.now) }
{
    text.split(|byte| *byte == b'\n').collect(alloc)
}

/// How many lines begin so.
fn count(lines: &[&[u8]], start: &[u8]) -> u64
    ensures { result ≡ counted start.now (map (λ line. line.now) lines.now) }
{
    let mut count = 0;
    for line in lines {
        if line.starts_with(start) {
            count += 1;
        }
    }
    count
}

/// Appends a name and a number, as a line.
fn say(name: &[u8], number: u64, said: &mut Vec<u8>) -> Result<(), NoMemory>
    ensures { OnOk result (said.new.items ≡ said.old.items ++ numbered_line name.now number) }
{
    said.extend_from_slice(name)?;
    said.extend_from_slice(Buffer::new().format(number).as_bytes())?;
    said.push(b'\n')?;
    Ok(())
}

/// The summary of lines.
#[tactic(auto, unfolding(crate::specs::Summaries::summary_of))]
fn summary_of(alloc: Global, rounds: u64, lines: &[&[u8]]) -> Result<Vec<u8>, NoMemory>
    ensures { IfOk result (λ said. said.items ≡ summary_of rounds (map (λ line. line.now) lines.now)) }
{
    let mut said = Vec::new(alloc);
    say(b"make ", rounds, &mut said)?;
    say(b"turns ", count(lines, b"turn "), &mut said)?;
    say(b"sends ", count(lines, b"send "), &mut said)?;
    say(b"host ", count(lines, b"host "), &mut said)?;
    say(b"store ", count(lines, b"store "), &mut said)?;
    say(b"hold ", count(lines, b"hold "), &mut said)?;
    Ok(said)
}

/// The summary of a transcript of so many rounds: a line for each kind of line that is counted.
pub fn summary(alloc: Global, rounds: u64, text: &[u8]) -> Result<Vec<u8>, NoMemory>
    ensures { IfOk result (λ said. said.items ≡ summary rounds text.now) }
{
    let lines = lines_of(alloc, text)?;
    summary_of(alloc, rounds, &lines)
}
