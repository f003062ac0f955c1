//! The bytes of an argument.

use net_types::{NoMemory, hex_of, number_of};
use std::alloc::Global;

/// How often a piece may be repeated.
const REPEATS_LIMIT: u64 = 65_536;

/// Puts the bytes of `HEX` or `HEX*COUNT` behind others. Whether it is such a piece.
fn push_piece(piece: &str, bytes: &mut Vec<u8>, alloc: Global) -> Result<bool, NoMemory> {
    let (digits, count) = match piece.split_once('*') {
        Some((digits, count)) => (digits, number_of(count.as_bytes(), REPEATS_LIMIT)),
        None => (piece, Some(1)),
    };
    let (Some(repeated), Some(count)) = (hex_of(alloc, digits.as_bytes())?, count) else {
        return Ok(false);
    };
    for _ in 0..count {
        bytes.extend_from_slice(&repeated)?;
    }
    Ok(true)
}

/// Puts a text behind bytes; `\n` in it is a line feed.
fn push_text(text: &str, bytes: &mut Vec<u8>) -> Result<(), NoMemory> {
    for (place, line) in text.split("\\n").enumerate() {
        if place > 0 {
            bytes.push(b'\n')?;
        }
        bytes.extend_from_slice(line.as_bytes())?;
    }
    Ok(())
}

/// The bytes that an argument spells, or none where it isn't of the form.
pub fn bytes_of(alloc: Global, argument: &str) -> Result<Option<Vec<u8>>, NoMemory> {
    let mut bytes = Vec::new(alloc);
    for (place, part) in argument.split('\'').enumerate() {
        if place % 2 == 1 {
            push_text(part, &mut bytes)?;
            continue;
        }
        for piece in part.split(' ').filter(|piece| !piece.is_empty()) {
            if !push_piece(piece, &mut bytes, alloc)? {
                return Ok(None);
            }
        }
    }
    Ok(Some(bytes))
}
