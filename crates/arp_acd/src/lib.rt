//! Conflict detection for one IPv4 address (RFC 5227): three probes, then two announcements, then a
//! defence of the address while it is held.
//!
//! `acd_begin`, then `tick` at the due moments, `acd_heard` for each ARP packet, and `acd_unsent` where
//! a frame could not be sent.
#![tactic(auto)]

mod constants;
mod detection;
mod foreign;
mod laws;
pub mod timing;

pub use constants::timing_is_that_of_rfc_5227;
pub use detection::{Acd, AcdSays, ArpSay, acd_addr, acd_begin, acd_heard, acd_held, acd_unsent};
pub use foreign::{is_contested, is_used};
pub use laws::{gives_up_contested_twice, passes_after_probes};
