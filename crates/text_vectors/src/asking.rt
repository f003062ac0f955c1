//! What arguments say.

use net_types::{Ip4, read_ip4};
use std::str;

/// A text, or an empty one where the bytes are no text.
pub(crate) fn text(argument: &[u8]) -> &str {
    str::from_utf8(argument).unwrap_or("")
}

/// An address of IPv4.
pub(crate) fn ip4(argument: &[u8]) -> Option<Ip4> {
    read_ip4(text(argument)).ok()
}
