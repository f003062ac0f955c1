//! Numbers, bytes and lists as texts, checksums, and names of DNS.

use domain_names::{is_name, is_search, is_text, search_of, text_of};
use net_types::{
    FromText, Hex, Ip4, Name, NoMemory, append_text, hex_of, list_of, number_of, strip_word,
    sum_add, sum_is_right, sum_new, sum_value, u8_of, u64_of,
};
use std::alloc::Global;
use std::fmt::Display;

/// Bytes by their numbers, and as pairs of digits.
fn hex_said(alloc: Global, text: &[u8]) -> Result<String, NoMemory> {
    match hex_of(alloc, text)? {
        Some(bytes) => Ok(format!(in alloc; "{bytes:?} {}", Hex(&bytes))?),
        None => Ok("bad".to_string(alloc)?),
    }
}

/// The parts of a list, with bars between them.
fn list_said<T: FromText + Display + Drop>(
    alloc: Global,
    list: &[u8],
    separator: u8,
) -> Result<String, NoMemory> {
    let Some(parts) = list_of::<T>(alloc, list, separator)? else {
        return Ok("bad".to_string(alloc)?);
    };
    let mut said = format!(in alloc; "{} parts", parts.len())?;
    for part in &parts {
        append_text(format_args!("|{part}"), &mut said)?;
    }
    Ok(said)
}

/// What follows a word.
fn rest_said(alloc: Global, word: &[u8], text: &[u8]) -> Result<String, NoMemory> {
    match strip_word(text, word) {
        Some(rest) => Ok(format!(in alloc; "{}", Hex(rest))?),
        None => Ok("none".to_string(alloc)?),
    }
}

/// The checksum over pieces, and whether it is right with them.
fn sum_said(alloc: Global, pieces: &[Vec<u8>]) -> Result<String, NoMemory> {
    let mut sum = sum_new();
    for piece in pieces {
        sum_add(&mut sum, piece);
    }
    let value = sum_value(&sum).to_be_bytes();
    Ok(format!(in alloc; "{} right {}", Hex(&value), sum_is_right(&sum))?)
}

/// A domain name as a text.
fn text_said(alloc: Global, value: &[u8]) -> Result<String, NoMemory> {
    let is_told = is_text(value);
    match text_of(alloc, value)? {
        Some(text) => Ok(format!(in alloc; "{text} {is_told}")?),
        None => Ok(format!(in alloc; "none {is_told}")?),
    }
}

/// The names of a search list.
fn search_said(alloc: Global, value: &[u8]) -> Result<String, NoMemory> {
    let is_told = is_search(value);
    match search_of(alloc, value)? {
        Some(names) => Ok(format!(in alloc; "{names:?} {is_told}")?),
        None => Ok(format!(in alloc; "none {is_told}")?),
    }
}

/// The answer to a vector of numbers, lists and names.
pub(crate) fn answer(
    alloc: Global,
    word: &str,
    arguments: &[Vec<u8>],
) -> Result<Option<String>, NoMemory> {
    let said = match (word, arguments) {
        ("u64", [number]) => format!(in alloc; "{:?}", u64_of(number))?,
        ("below", [limit, number]) => {
            let limit = u64_of(limit).unwrap_or(0);
            format!(in alloc; "{:?}", number_of(number, limit))?
        }
        ("byte", [number]) => format!(in alloc; "{:?}", u8_of(number, 256))?,
        ("hex", [text]) => hex_said(alloc, text)?,
        ("names", [list]) => list_said::<Name>(alloc, list, b',')?,
        ("addresses", [list]) => list_said::<Ip4>(alloc, list, b' ')?,
        ("strip", [word, text]) => rest_said(alloc, word, text)?,
        ("sum", pieces) => sum_said(alloc, pieces)?,
        ("text", [value]) => text_said(alloc, value)?,
        ("is-name", [text]) => format!(in alloc; "{}", is_name(text))?,
        ("search", [value]) => search_said(alloc, value)?,
        _ => return Ok(None),
    };
    Ok(Some(said))
}
