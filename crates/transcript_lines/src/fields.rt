//! The fields of lines.
ghost use Rattle.std.specs.Prelude.{◌≡◌, ◌^◌, IfOk, is_some, option_map};
ghost use Rattle.std.specs.List.{list_all};
ghost use Rattle.net_types.specs.Cutting.{field_at, list_at};
ghost use Rattle.net_types.specs.Numbers.{number_at};
ghost use Rattle.world.specs.FileNames.{is_file_byte};
ghost use Rattle.transcript_text.specs.FieldForms.{split_at_last};
ghost use Rattle.transcript_text.specs.LineFields.{file_field, iface_field, lacks, names_at, outcome_field, reason_field, variable_name_field, variable_value_field};
ghost use Rattle.transcript_lines.specs.Names.{listed_at, name_at};

use memchr::memrchr;
use net_types::{FromText, NoMemory, list_of, name_of, number_of, split_at_byte, u64_of};
use std::alloc::Global;
use world::{Reason, reason_text};

/// One more than the greatest number of 32 bits.
const INDEX_LIMIT: u64 = 0x1_0000_0000;

/// The reasons for which a hook runs.
const REASONS: [Reason; 21] = [
    Reason::Preinit,
    Reason::Carrier,
    Reason::NoCarrier,
    Reason::StaticLine,
    Reason::Bound,
    Reason::Reboot,
    Reason::Renew,
    Reason::Rebind,
    Reason::Nak,
    Reason::Expire,
    Reason::Timeout,
    Reason::Ipv4ll,
    Reason::Stop,
    Reason::Stop6,
    Reason::Stopped,
    Reason::Bound6,
    Reason::Reboot6,
    Reason::Renew6,
    Reason::Rebind6,
    Reason::Expire6,
    Reason::Delegated6,
];

/// What stands before and after the last separator.
pub fn split_at_last(bytes: &[u8], separator: u8) -> Option<(&[u8], &[u8])>
    ensures { option_map (λ p. (p.0.now, p.1.now)) result ≡ split_at_last separator bytes.now }
{
    match memrchr(separator, bytes) {
        Some(place) => Some((&bytes[..place], &bytes[place + 1..])),
        None => None,
    }
}

/// A number below 2^32.
pub fn index_of(bytes: &[u8]) -> Option<u32>
    ensures { result ≡ number_at (2 ^ 32) bytes.now }
{
    match number_of(bytes, INDEX_LIMIT) {
        Some(number) => Some(number as u32),
        None => None,
    }
}

/// Such a number before the first blank, and the text after it.
pub fn index_field_of(bytes: &[u8]) -> Option<(u32, &[u8])>
    ensures { option_map (λ p. (p.0, p.1.now)) result ≡ field_at 32 (number_at (2 ^ 32)) bytes.now }
{
    let (part, rest) = split_at_byte(bytes, b' ')?;
    let number = index_of(part)?;
    Some((number, rest))
}

/// A number of 64 bits before the first blank, and the text after it.
pub fn count_field_of(bytes: &[u8]) -> Option<(u64, &[u8])>
    ensures { option_map (λ p. (p.0, p.1.now)) result ≡ field_at 32 (number_at (2 ^ 64)) bytes.now }
{
    let (part, rest) = split_at_byte(bytes, b' ')?;
    let number = u64_of(part)?;
    Some((number, rest))
}

fn is_file_byte(byte: u8) -> bool
    ensures { result ≡ is_file_byte byte }
{
    byte.is_ascii_alphanumeric() || byte == b'.' || byte == b'_' || byte == b'-'
}

fn are_file_bytes(bytes: &[u8]) -> bool
    ensures { result ≡ list_all is_file_byte bytes.now }
{
    bytes.iter().all(|byte| is_file_byte(*byte))
}

/// The name of a file.
pub fn file_of(bytes: &[u8]) -> Option<&[u8]>
    ensures { option_map (λ name. name.now) result ≡ file_field.at bytes.now }
{
    if are_file_bytes(bytes) {
        Some(bytes)
    } else {
        None
    }
}

/// The name before the first blank, and the text after it.
pub fn file_field_of(bytes: &[u8]) -> Option<(&[u8], &[u8])>
    ensures { option_map (λ p. (p.0.now, p.1.now)) result ≡ field_at 32 file_field.at bytes.now }
{
    let (part, rest) = split_at_byte(bytes, b' ')?;
    let name = file_of(part)?;
    Some((name, rest))
}

/// A name in a list.
#[derive(Clone, Copy, PartialEq, Eq, Drop)]
pub struct ListedName;

impl FromText for ListedName {
    ghost found = { name_at };

    fn from_text(text: &[u8]) -> Option<ListedName> {
        if !text.is_empty() && are_file_bytes(text) {
            Some(ListedName)
        } else {
            None
        }
    }
}

fn are_names(alloc: Global, bytes: &[u8]) -> Result<bool, NoMemory>
    ensures { IfOk result (λ all. all ≡ is_some (list_at 32 name_at bytes.now)) }
{
    let names: Option<Vec<ListedName>> = list_of(alloc, bytes, b' ')?;
    Ok(names.is_some())
}

/// Whether the text is names, each after a blank.
pub fn is_listed(alloc: Global, bytes: &[u8]) -> Result<bool, NoMemory>
    ensures { IfOk result (λ all. all ≡ is_some (listed_at bytes.now)) }
{
    match bytes.split_first() {
        None => Ok(true),
        Some((first, names)) => {
            if *first == b' ' {
                are_names(alloc, names)
            } else {
                Ok(false)
            }
        }
    }
}

/// Whether it was done.
pub fn outcome_of(bytes: &[u8]) -> Option<bool>
    ensures { result ≡ outcome_field.at bytes.now }
{
    if bytes == b"ok".as_slice() {
        Some(true)
    } else if bytes == b"failed".as_slice() {
        Some(false)
    } else {
        None
    }
}

fn reason_of(bytes: &[u8]) -> Option<Reason>
    ensures { result ≡ reason_field.at bytes.now }
{
    REASONS
        .iter()
        .copied()
        .find(|reason| bytes == reason_text(*reason).as_bytes())
}

/// The reason before the first blank, and the text after it.
pub fn reason_field_of(bytes: &[u8]) -> Option<(Reason, &[u8])>
    ensures { option_map (λ p. (p.0, p.1.now)) result ≡ field_at 32 reason_field.at bytes.now }
{
    let (part, rest) = split_at_byte(bytes, b' ')?;
    let reason = reason_of(part)?;
    Some((reason, rest))
}

/// The name of an interface.
#[tactic(auto, unfolding(net_types::specs::NameText::name_at))]
pub fn iface_name_of(bytes: &[u8]) -> Option<&[u8]>
    ensures { option_map (λ name. name.now) result ≡ iface_field.at bytes.now }
{
    match name_of(bytes) {
        Some(_) => Some(bytes),
        None => None,
    }
}

fn lacks(byte: u8, bytes: &[u8]) -> bool
    ensures { result ≡ lacks byte bytes.now }
{
    bytes.iter().all(|other| *other != byte)
}

/// The name of a variable.
pub fn variable_name_of(bytes: &[u8]) -> Option<&[u8]>
    ensures { option_map (λ name. name.now) result ≡ variable_name_field.at bytes.now }
{
    if lacks(b'=', bytes) && lacks(b'\n', bytes) {
        Some(bytes)
    } else {
        None
    }
}

/// The value of a variable.
pub fn variable_value_of(bytes: &[u8]) -> Option<&[u8]>
    ensures { option_map (λ value. value.now) result ≡ variable_value_field.at bytes.now }
{
    if lacks(b'\n', bytes) {
        Some(bytes)
    } else {
        None
    }
}
