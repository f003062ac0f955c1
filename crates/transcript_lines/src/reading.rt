//! A line, read.
ghost use Rattle.std.specs.Prelude.{◌≡◌, IfOk, option_map};
ghost use Rattle.std.specs.List.{list_all};
ghost use Rattle.net_types.specs.Marks.{is_printable};
ghost use Rattle.transcript_lines.specs.Contents.{line_of};
ghost use Rattle.transcript_lines.specs.LineReading.{line_at, read_as};
ghost use Rattle.transcript_lines.specs.Roles.{role_of};

use crate::calls::{
    added_of, asides_of, deleted_of, hold_of, read_of, removed_of, renamed_of, send_of, synced_of,
    until_of, wrote_of,
};
use crate::fields::outcome_of;
use crate::hooks::{dropped_of, polled_of, started_of, variable_of};
use crate::kinds::{Kind, kind_of};
use crate::lines::ToldLine;
use crate::role::Role;
use crate::turns::turn_of;
use net_types::{NoMemory, end_of, u64_of};
use row_texts::row_of;
use script_lines::{begin_of, spec_of};
use std::alloc::Global;

/// The most interfaces.
const MOST_INTERFACES: u32 = 64;

/// Whether all bytes are printable. Without a branch at each of them, so that many are judged at once.
pub fn is_printable(line: &[u8]) -> bool
    ensures { result ≡ list_all is_printable line.now }
{
    let mut good = true;
    for byte in line {
        good &= (b' '..=b'~').contains(byte);
    }
    good
}

/// What stands after the word of a line of this kind.
fn read_as<'a>(alloc: Global, kind: Kind, rest: &'a [u8]) -> Result<Option<ToldLine<'a>>, NoMemory>
    ensures { IfOk result (λ o. option_map line_of o ≡ read_as kind rest.now) }
{
    match kind {
        Kind::Turn => turn_of(alloc, rest),
        Kind::Until => Ok(until_of(rest)),
        Kind::Send => send_of(alloc, rest),
        Kind::Row => Ok(row_of(rest).map(|row| ToldLine::Row(row))),
        Kind::Variable => Ok(variable_of(rest)),
        Kind::HostListed => Ok(u64_of(rest).map(|count| ToldLine::HostListed { count })),
        Kind::HostAdd => Ok(added_of(rest)),
        Kind::HostDel => Ok(deleted_of(rest)),
        Kind::HookStarted => Ok(started_of(rest)),
        Kind::HookPolled => Ok(polled_of(rest)),
        Kind::HookDropped => Ok(dropped_of(rest)),
        Kind::HookAbandoned => Ok(u64_of(rest).map(|number| ToldLine::HookAbandoned(number))),
        Kind::Wrote => wrote_of(alloc, rest),
        Kind::Synced => Ok(synced_of(rest)),
        Kind::Renamed => Ok(renamed_of(rest)),
        Kind::Removed => Ok(removed_of(rest)),
        Kind::Settled => Ok(outcome_of(rest).map(|done| ToldLine::Settled { done })),
        Kind::Read => read_of(alloc, rest),
        Kind::Asides => asides_of(alloc, rest),
        Kind::AsidesFailed => Ok(end_of(rest).map(|_| ToldLine::AsidesFailed)),
        Kind::HostListFailed => Ok(end_of(rest).map(|_| ToldLine::HostListFailed)),
        Kind::Hold => Ok(hold_of(rest)),
        Kind::EndOfLife => Ok(end_of(rest).map(|_| ToldLine::EndOfLife)),
        Kind::Life => Ok(u64_of(rest).map(|number| ToldLine::Life(number))),
        Kind::Start => Ok(begin_of(alloc, MOST_INTERFACES, rest)?.map(|begin| ToldLine::Start(
            begin,
        ))),
        Kind::Interface => Ok(spec_of(rest).map(|spec| ToldLine::Interface(spec))),
    }
}

/// The line that the text spells.
#[tactic(auto, unfolding(crate::specs::LineReading::line_at))]
pub fn read_line<'a>(alloc: Global, text: &'a [u8]) -> Result<Option<ToldLine<'a>>, NoMemory>
    ensures { IfOk result (λ o. option_map line_of o ≡ line_at text.now) }
{
    match kind_of(text) {
        Some((kind, rest)) => read_as(alloc, kind, rest),
        None => Ok(None),
    }
}

/// What a line is to the shape of a transcript.
pub fn role_of(line: &ToldLine<'_>) -> Role
    ensures { result ≡ role_of (line_of line.now) }
{
    match line {
        ToldLine::Interface(spec) => Role::Interface(*spec),
        ToldLine::Life(number) => Role::Life(*number),
        ToldLine::Start(begin) => Role::Start(begin.at),
        ToldLine::Turn { at, .. } => Role::Turn(*at),
        ToldLine::HostListed { count } => Role::Listing(*count),
        ToldLine::Row(row) => Role::Row(*row),
        ToldLine::EndOfLife => Role::End,
        _ => Role::Other,
    }
}
