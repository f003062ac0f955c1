//! What tells a client apart (option 61; RFC 2132, section 9.14).
ghost use Rattle.std.specs.Prelude.{◌≡◌, ◌∷◌, option_map, IfOk};
ghost use Rattle.conf_values.specs.Identifiers.{are_enough, identifier, pair, pairs, typed_text};

use crate::texts::printed;
use crate::words::{Word, all_of, colon_parts};
use hex::FromHex;
use net_types::NoMemory;
use std::alloc::{AllocError, Global};

/// How many pairs of digits are no text.
pub const LEAST_PAIRS: usize = 2;
/// How many bytes option 61 has at most.
pub const MOST_PAIRS: usize = 255;
/// How many bytes of it are left for a text, after the type.
pub const TYPED_TEXT_LIMIT: usize = 254;

/// The type of an identifier that is no hardware address.
const NO_HARDWARE: u8 = 0;

/// The byte that two hexadecimal digits spell, in either case.
fn pair(digits: &[u8]) -> Option<u8>
    ensures { result ≡ pair digits.now }
{
    let [byte] = <[u8; 1]>::from_hex(digits).ok()?;
    Some(byte)
}

impl Word for u8 {
    ghost use Rattle.conf_values.specs.Identifiers.{pair};

    ghost spelled = { pair };

    fn of_word(_alloc: Global, word: &[u8]) -> Result<Option<u8>, NoMemory> {
        Ok(pair(word))
    }
}

fn are_enough(bytes: &[u8]) -> bool
    ensures { result ≡ are_enough bytes.now }
{
    LEAST_PAIRS <= bytes.len() && bytes.len() <= MOST_PAIRS
}

/// The bytes that pairs of digits spell.
fn pairs(alloc: Global, text: &[u8]) -> Result<Option<Vec<u8>>, NoMemory>
    ensures { IfOk result (λ read. option_map (λ v. v.items) read ≡ pairs text.now) }
{
    let parts = colon_parts(alloc, text)?;
    match all_of::<u8>(alloc, &parts)? {
        Some(bytes) if are_enough(&bytes) => Ok(Some(bytes)),
        _ => Ok(None),
    }
}

fn with_type(alloc: Global, text: &[u8]) -> Result<Vec<u8>, AllocError>
    ensures { IfOk result (λ bytes. bytes.items ≡ 0 ∷ text.now) }
{
    let mut bytes = vec![in alloc; NO_HARDWARE]?;
    bytes.extend_from_slice(text)?;
    Ok(bytes)
}

fn typed_text(alloc: Global, text: &[u8]) -> Result<Option<Vec<u8>>, AllocError>
    ensures { IfOk result (λ bytes. option_map (λ v. v.items) bytes ≡ typed_text text.now) }
{
    match printed(text, TYPED_TEXT_LIMIT) {
        Some(text) => Ok(Some(with_type(alloc, text)?)),
        None => Ok(None),
    }
}

/// The bytes of option 61: those that pairs spell, or a text after the type.
pub fn identifier(alloc: Global, text: &[u8]) -> Result<Option<Vec<u8>>, NoMemory>
    ensures { IfOk result (λ bytes. option_map (λ v. v.items) bytes ≡ identifier text.now) }
{
    match pairs(alloc, text)? {
        Some(bytes) => Ok(Some(bytes)),
        None => Ok(typed_text(alloc, text)?),
    }
}
