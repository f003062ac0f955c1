//! Lines of the transcript as text: any one line, and those of the listings and changes of the host's rows.

ghost use Rattle.std.specs.Prelude.{◌≡◌, ◌++◌, [], ◌∷◌, List, Some, OnOk, map};
ghost use Rattle.world.specs.HostCalls as calls;
ghost use Rattle.script_model.specs.Lines as lines;
ghost use Rattle.transcript_text.specs.Printed.{line_of};
ghost use Rattle.typed_lines.specs.TypedLines.{IsTyped};
ghost use Rattle.host_model.specs.HostTurn.{change_call};
ghost use Rattle.device_calls.specs.CallLines.{host_lines};
ghost use Rattle.device_calls.specs.Printing.{Prints};
ghost use Rattle.life_devices.specs.Answered.{rows_in, FitsChange};

use host_model::HostChange;
use transcript_text::{TranscriptLine, print_line};
use world::{HostRow, NoMemory};

/// Appends one line to a text; what it tells is within the types that hold it.
#[tactic(auto, using(device_calls::proofs::Printings::prints_line))]
pub fn say(line: &TranscriptLine<'_>, text: &mut Vec<u8>) -> Result<(), NoMemory>
    requires { IsTyped (line_of line.now) }
    ensures { OnOk result (Prints text.old.items text.new.items (line_of line.now ∷ [])) }
{
    print_line(line, text)
}

#[tactic(auto, using(device_calls::proofs::Printings::prints_none, device_calls::proofs::Printings::rows_more))]
fn say_rows(rows: &[HostRow], text: &mut Vec<u8>) -> Result<(), NoMemory>
    ensures { OnOk result (Prints text.old.items text.new.items (map lines.Row rows.now)) }
{
    for row in rows {
        say(&TranscriptLine::Row(row), text)?;
    }
    Ok(())
}

#[tactic(auto, using(device_calls::proofs::Printings::prints_then))]
fn say_listed(rows: &[HostRow], text: &mut Vec<u8>) -> Result<(), NoMemory>
    ensures { OnOk result (Prints text.old.items text.new.items (host_lines (calls.Listed (Some rows.now)))) }
{
    let count = rows.len() as u64;
    say(&TranscriptLine::HostListed { count }, text)?;
    say_rows(rows, text)?;
    Ok(())
}

/// Appends the lines of a listing.
pub fn say_listing(rows: &Option<Vec<HostRow>>, text: &mut Vec<u8>) -> Result<(), NoMemory>
    ensures { OnOk result (Prints text.old.items text.new.items (host_lines (calls.Listed (rows_in rows.now)))) }
{
    match rows {
        None => say(&TranscriptLine::HostListFailed, text),
        Some(rows) => say_listed(rows, text),
    }
}

/// Appends the line of a change.
pub fn say_change(change: HostChange, done: bool, text: &mut Vec<u8>) -> Result<(), NoMemory>
    requires { FitsChange change }
    ensures { OnOk result (Prints text.old.items text.new.items (host_lines (change_call change done))) }
{
    match change {
        HostChange::Remove(row) => say(&TranscriptLine::HostDel { row: &row, done }, text),
        HostChange::Add(row) => say(&TranscriptLine::HostAdd { row: &row, done }, text),
    }
}
