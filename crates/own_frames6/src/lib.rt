//! A DHCPv6 client's messages, read back from its own frames (RFC 8415): what a frame says, where it is byte for byte
//! the frame of that message. No limit stands on how long a frame is or how much a message names.
#![tactic(auto)]

mod framing;
mod reading;
mod sent;
mod writing;

pub use reading::SaidView;
pub use sent::{SentView, sent6_of};
