//! The data of a DHCPv4 server's message, for tests and measures (RFC 2131).
#![tactic(auto)]

mod constants;
mod field;
mod framing;
mod laws;
mod reply;
mod writing;

pub use constants::{fields_are_those_assigned, server_is_this_one};
pub use framing::{SERVER, SERVER_MAC, server_frame};
pub use laws::replies_are_read_back;
pub use reply::{Reply, ReplyKind};
pub use writing::server_data;
