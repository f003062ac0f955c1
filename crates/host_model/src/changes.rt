//! One step towards the addresses and routes that the host is to hold: a row is removed from its table, or added to
//! it.

use world::HostRow;

/// A change to the host's table.
#[derive(Clone, Copy, PartialEq, Eq)]
pub enum HostChange {
    Remove(HostRow),
    Add(HostRow),
}
