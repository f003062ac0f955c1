//! A prefix that an interface holds.

use net_types::Net6;

/// A prefix that is held, and the IAID of its IA_PD (RFC 8415, section 12.2).
#[derive(Clone, Copy, PartialEq, Eq)]
pub struct HeldPrefix {
    pub iaid: u32,
    pub net: Net6,
}
