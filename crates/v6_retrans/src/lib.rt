//! When a DHCPv6 message that isn't answered is said again, and how often (RFC 8415, section 15).
//!
//! Times are milliseconds, each rounded down.
#![tactic(auto)]

mod constants;
mod laws;
pub mod parameters;
mod rand;
mod retrans;

pub use constants::parameters_are_those_of_rfc_8415;
pub use laws::{times_are_bounded, times_follow};
pub use parameters::Parameters;
pub use rand::{draw_positive_rand, draw_rand};
pub use retrans::Retrans;
