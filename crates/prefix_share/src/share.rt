//! What one interface is to get of a delegated IPv6 prefix: which subnet, and how long its prefix is.

use net_types::Name;

/// What an interface is to get of a delegated prefix.
#[derive(Clone, Copy, PartialEq, Eq)]
pub struct Share {
    /// The interface.
    pub name: Name,
    /// The SLA id: the number of the subnet within the prefix, in the bits that are added to it.
    pub sla: u32,
    /// The length of the subnet's prefix in bits, 1 to 127.
    pub len: u8,
    /// The length of the prefix that is asked for, in bits, or 0 where none is.
    pub hint: u8,
}
