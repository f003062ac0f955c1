//! The number, the name and the hardware address of an interface, as the host knows them.

use crate::address::Mac;

/// The number of an interface, 1 to 64.
#[derive(Clone, Copy, Debug, PartialEq, Eq)]
pub struct IfIndex {
    pub number: u32,
}

/// The name of an interface: 1 to 15 letters, digits, `.`, `_` and `-`, the first a letter or a digit.
/// The bytes past `len` are 0.
#[derive(Clone, Copy, Debug, PartialEq, Eq)]
pub struct Name {
    pub bytes: [u8; 15],
    pub len: u8,
}

/// An interface as the host knows it.
#[derive(Clone, Copy, Debug, PartialEq, Eq)]
pub struct IfSpec {
    pub index: IfIndex,
    pub name: Name,
    pub mac: Mac,
}
