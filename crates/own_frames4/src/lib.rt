//! The DHCPv4 messages of an interface's own client, read back from the frames that it offered (RFC 2131).
#![tactic(auto)]

mod own;

pub use own::{messages_of, own4};
