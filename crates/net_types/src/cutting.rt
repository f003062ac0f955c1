//! The parts of a text: a word in front, what stands round a separator, a list of parts.
ghost use Rattle.std.specs.Prelude.{◌≡◌, ℕ, List, Option, option_map, option_copied, IfOk, IfSome, ◌==◌, ◌<◌, length};
ghost use Rattle.std.specs.List.{position};
ghost use Rattle.net_types.specs.Cutting.{strip_word, split_at_byte, end_at, list_at};

use crate::fault::NoMemory;
use memchr::memchr;
use std::alloc::Global;

/// The text after a word that it begins with.
#[tactic(auto, unfolding(crate::specs::Cutting::strip_word))]
pub fn strip_word<'a>(bytes: &'a [u8], word: &[u8]) -> Option<&'a [u8]>
    ensures { option_copied result ≡ strip_word word.now bytes.now }
{
    if bytes.starts_with(word) {
        Some(&bytes[word.len()..])
    } else {
        None
    }
}

fn place_of(bytes: &[u8], separator: u8) -> Option<usize>
    ensures place { result ≡ position (λ b. b == separator) bytes.now }
    ensures within { IfSome result (λ i. i < length bytes.now) }
{
    memchr(separator, bytes)
}

/// What stands before and after the first separator.
#[tactic(auto, unfolding(crate::specs::Cutting::split_at_byte))]
pub fn split_at_byte(bytes: &[u8], separator: u8) -> Option<(&[u8], &[u8])>
    ensures { option_map (λ p. (p.0.now, p.1.now)) result ≡ split_at_byte separator bytes.now }
{
    match place_of(bytes, separator) {
        Some(place) => Some((&bytes[..place], &bytes[place + 1..])),
        None => None,
    }
}

/// Nothing more.
#[tactic(auto, unfolding(crate::specs::Cutting::end_at))]
pub fn end_of(bytes: &[u8]) -> Option<()>
    ensures { result ≡ end_at bytes.now }
{
    if bytes.is_empty() { Some(()) } else { None }
}

/// A type that is read from a whole text.
pub trait FromText: Sized {
    ghost found: { List ℕ → Option Self };

    /// The value that the text spells.
    fn from_text(text: &[u8]) -> Option<Self>
        ensures { result ≡ Self.found text.now };
}

/// One part or more, each read by `T`, with a separator between each two.
pub fn list_of<T: FromText + Drop>(
    alloc: Global,
    bytes: &[u8],
    separator: u8,
) -> Result<Option<Vec<T>>, NoMemory>
    ensures { IfOk result (λ o. option_map (λ v. v.items) o ≡ list_at separator T.found bytes.now) }
{
    let mut items = Vec::new(alloc);
    let mut rest = bytes;
    'parts: loop {
        let Some((part, others)) = split_at_byte(rest, separator) else {
            break 'parts;
        };
        let Some(item) = T::from_text(part) else {
            return Ok(None);
        };
        items.push(item)?;
        rest = others;
    }
    let Some(last) = T::from_text(rest) else {
        return Ok(None);
    };
    items.push(last)?;
    Ok(Some(items))
}
