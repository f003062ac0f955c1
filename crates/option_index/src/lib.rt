//! Where the options of a DHCPv4 message stand (RFC 2132), found by one pass over its areas, so that each query
//! is answered without a walk of its own.
#![tactic(auto)]

mod area;
mod index;
mod place;

pub use index::{Found, OptionIndex};
