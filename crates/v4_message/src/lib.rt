//! DHCPv4 messages (RFC 2131): a server's reply read, and a client's message written.
#![tactic(auto)]

mod constants;
mod field;
pub mod kind;
mod reading;
mod writing;

pub use constants::kinds_are_those_assigned;
pub use kind::MessageKind;
pub use reading::{Bad4, Msg4, read4};
pub use writing::{Ask4, Kind4, Said4, put_option, write4};
