//! What arguments say.

use net_types::{Mac, number_of, read_mac};
use std::str;

/// A text, or an empty one where the bytes are no text.
pub(crate) fn text(argument: &[u8]) -> &str {
    str::from_utf8(argument).unwrap_or("")
}

/// A number of 16 bits.
pub(crate) fn word(argument: &[u8]) -> Option<u16> {
    u16::try_from(number_of(argument, 65_536)?).ok()
}

/// A number of 32 bits.
pub(crate) fn long(argument: &[u8]) -> Option<u32> {
    u32::try_from(number_of(argument, 4_294_967_296)?).ok()
}

/// A hardware address.
pub(crate) fn mac(argument: &[u8]) -> Option<Mac> {
    read_mac(text(argument)).ok()
}
