//! A DHCPv4 client's message, read back from its frame (RFC 2131), whatever the client's configuration is.
#![tactic(auto)]

mod seen;

pub use seen::{Seen4, is_spelled, seen_in};
