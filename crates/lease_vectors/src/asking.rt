//! What arguments say, and what is said again and again.

use net_types::NoMemory;
use std::alloc::Global;
use std::str;

/// A text, or an empty one where the bytes are no text.
pub(crate) fn text(argument: &[u8]) -> &str {
    str::from_utf8(argument).unwrap_or("")
}

/// Whether a flag is among words.
pub(crate) fn is_among(flag: &str, words: &[u8]) -> bool {
    text(words).split(' ').any(|word| word == flag)
}

/// When a machine is due next.
pub(crate) fn due_said(alloc: Global, due: Option<u64>) -> Result<String, NoMemory> {
    match due {
        Some(at) => Ok(format!(in alloc; "due {at}")?),
        None => Ok("never due".to_string(alloc)?),
    }
}
