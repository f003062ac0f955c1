//! DHCPv6 messages (RFC 8415): a server's message read, with its IAs, and a client's message written.
#![tactic(auto)]

mod kind;
mod laws;
pub mod parts;
mod reading;
mod said;
mod writing;

pub use kind::{Kind6, ServerKind6};
pub use laws::said_is_read_back;
pub use reading::{Bad6, Msg6, ias_of, read6};
pub use said::{IaAsked, Said6};
pub use v6_options::Duid;
pub use writing::write6;
