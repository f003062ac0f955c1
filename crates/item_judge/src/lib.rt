//! The judge of the items of DHCPv6 leases: what the Replies to an interface's own messages give, turn by turn.
#![tactic(auto)]

mod asking;
mod heard;
mod judge;
mod laws;
mod own;
mod reading;
mod table;
mod terms;

pub use judge::ItemJudge;
pub use laws::{addresses_are_given, exchanges_are_told, prefixes_are_delegated};
pub use own::message6_of;
