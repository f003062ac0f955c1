//! What arguments say.

use std::str;

/// A text, or an empty one where the bytes are no text.
pub(crate) fn text(argument: &[u8]) -> &str {
    str::from_utf8(argument).unwrap_or("")
}
