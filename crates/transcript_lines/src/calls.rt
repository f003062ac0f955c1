//! The lines of calls of the store, the link and the host, read.
ghost use Rattle.std.specs.Prelude.{◌≡◌, IfOk, option_map};
ghost use Rattle.transcript_text.specs.LineFields.{called, file_field, reading_field};
ghost use Rattle.transcript_lines.specs.Bounds.{is_iface};
ghost use Rattle.transcript_lines.specs.Contents.{line_of, reading_of};
ghost use Rattle.transcript_lines.specs.LineReading.{added_at, asides_at, changed_at, deleted_at, hold_at, read_at, removed_at, renamed_at, send_at, synced_at, until_at, wrote_at};

use crate::fields::{file_field_of, file_of, index_field_of, is_listed, outcome_of, split_at_last};
use crate::lines::{FileReading, ToldLine};
use net_types::{IfIndex, NoMemory, hex_of, u64_of};
use row_texts::row_of;
use std::alloc::Global;
use world::HostRow;

/// The greatest number of an interface.
const LAST_INTERFACE: u32 = 64;

fn is_iface(number: u32) -> bool
    ensures { result ≡ is_iface number }
{
    1 <= number && number <= LAST_INTERFACE
}

/// The names of asides.
#[tactic(auto, using(crate::proofs::NameLaws::asides_listed, crate::proofs::NameLaws::asides_bad))]
pub fn asides_of<'a>(alloc: Global, bytes: &'a [u8]) -> Result<Option<ToldLine<'a>>, NoMemory>
    ensures { IfOk result (λ o. option_map line_of o ≡ asides_at bytes.now) }
{
    if is_listed(alloc, bytes)? {
        Ok(Some(ToldLine::Asides(bytes)))
    } else {
        Ok(None)
    }
}

/// A name, and whether the call was done.
fn filed_of(bytes: &[u8]) -> Option<(&[u8], bool)>
    ensures { option_map (λ p. (p.0.now, p.1)) result ≡ (called file_field).at bytes.now }
{
    let (name, outcome) = split_at_last(bytes, b' ')?;
    let name = file_of(name)?;
    let done = outcome_of(outcome)?;
    Some((name, done))
}

/// The aside of a file that was brought to rest.
pub fn synced_of<'a>(bytes: &'a [u8]) -> Option<ToldLine<'a>>
    ensures { option_map line_of result ≡ synced_at bytes.now }
{
    let (name, done) = filed_of(bytes)?;
    if name.is_empty() {
        None
    } else {
        Some(ToldLine::Synced { name, done })
    }
}

/// The aside of a file that was put in its place.
pub fn renamed_of<'a>(bytes: &'a [u8]) -> Option<ToldLine<'a>>
    ensures { option_map line_of result ≡ renamed_at bytes.now }
{
    let (name, done) = filed_of(bytes)?;
    if name.is_empty() {
        None
    } else {
        Some(ToldLine::Renamed { name, done })
    }
}

/// A file that was removed.
pub fn removed_of<'a>(bytes: &'a [u8]) -> Option<ToldLine<'a>>
    ensures { option_map line_of result ≡ removed_at bytes.now }
{
    let (name, done) = filed_of(bytes)?;
    if name.is_empty() {
        None
    } else {
        Some(ToldLine::Removed { name, done })
    }
}

/// The aside of a file that was written.
pub fn wrote_of<'a>(alloc: Global, bytes: &'a [u8]) -> Result<Option<ToldLine<'a>>, NoMemory>
    ensures { IfOk result (λ o. option_map line_of o ≡ wrote_at bytes.now) }
{
    let Some((written, outcome)) = split_at_last(bytes, b' ') else {
        return Ok(None);
    };
    let Some((name, digits)) = file_field_of(written) else {
        return Ok(None);
    };
    let Some(bytes) = hex_of(alloc, digits)? else {
        return Ok(None);
    };
    let Some(done) = outcome_of(outcome) else {
        return Ok(None);
    };
    if name.is_empty() {
        Ok(None)
    } else {
        Ok(Some(ToldLine::Wrote { name, bytes, done }))
    }
}

/// What reading a file gave.
fn reading_of(alloc: Global, bytes: &[u8]) -> Result<Option<FileReading>, NoMemory>
    ensures { IfOk result (λ o. option_map reading_of o ≡ reading_field.at bytes.now) }
{
    if bytes == b"none".as_slice() {
        return Ok(Some(FileReading::Missing));
    }
    if bytes == b"failed".as_slice() {
        return Ok(Some(FileReading::Unread));
    }
    match hex_of(alloc, bytes)? {
        Some(found) => Ok(Some(FileReading::Found(found))),
        None => Ok(None),
    }
}

/// A file that was read.
pub fn read_of<'a>(alloc: Global, bytes: &'a [u8]) -> Result<Option<ToldLine<'a>>, NoMemory>
    ensures { IfOk result (λ o. option_map line_of o ≡ read_at bytes.now) }
{
    let Some((name, rest)) = file_field_of(bytes) else {
        return Ok(None);
    };
    let Some(reading) = reading_of(alloc, rest)? else {
        return Ok(None);
    };
    if name.is_empty() {
        Ok(None)
    } else {
        Ok(Some(ToldLine::Read { name, reading }))
    }
}

/// A frame that was offered to the link.
pub fn send_of<'a>(alloc: Global, bytes: &'a [u8]) -> Result<Option<ToldLine<'a>>, NoMemory>
    ensures { IfOk result (λ o. option_map line_of o ≡ send_at bytes.now) }
{
    let Some((sent, outcome)) = split_at_last(bytes, b' ') else {
        return Ok(None);
    };
    let Some((number, digits)) = index_field_of(sent) else {
        return Ok(None);
    };
    let Some(bytes) = hex_of(alloc, digits)? else {
        return Ok(None);
    };
    let Some(taken) = outcome_of(outcome) else {
        return Ok(None);
    };
    if is_iface(number) {
        Ok(Some(ToldLine::Send {
            iface: IfIndex { number },
            bytes,
            taken,
        }))
    } else {
        Ok(None)
    }
}

/// A row in any spelling, and whether the call was done.
fn changed_of(bytes: &[u8]) -> Option<(HostRow, bool)>
    ensures { result ≡ changed_at bytes.now }
{
    let (row, outcome) = split_at_last(bytes, b' ')?;
    let row = row_of(row)?;
    let done = outcome_of(outcome)?;
    Some((row, done))
}

/// A row that was to go.
pub fn deleted_of<'a>(bytes: &'a [u8]) -> Option<ToldLine<'a>>
    ensures { option_map line_of result ≡ deleted_at bytes.now }
{
    let (row, done) = changed_of(bytes)?;
    Some(ToldLine::HostDel { row, done })
}

/// A row that was to come.
pub fn added_of<'a>(bytes: &'a [u8]) -> Option<ToldLine<'a>>
    ensures { option_map line_of result ≡ added_at bytes.now }
{
    let (row, done) = changed_of(bytes)?;
    Some(ToldLine::HostAdd { row, done })
}

/// Until when the next wait may last.
pub fn until_of<'a>(bytes: &'a [u8]) -> Option<ToldLine<'a>>
    ensures { option_map line_of result ≡ until_at bytes.now }
{
    if bytes == b"none".as_slice() {
        return Some(ToldLine::Until(None));
    }
    let at = u64_of(bytes)?;
    Some(ToldLine::Until(Some(at)))
}

/// An address that the life leaves.
pub fn hold_of<'a>(bytes: &'a [u8]) -> Option<ToldLine<'a>>
    ensures { option_map line_of result ≡ hold_at bytes.now }
{
    match row_of(bytes)? {
        HostRow::Addr { iface, net } => Some(ToldLine::Hold { iface, net }),
        HostRow::Route { .. } => None,
    }
}
