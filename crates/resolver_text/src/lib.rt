//! The text of the resolver's file, `resolv.conf`: what the leases say of name servers and search domains
//! (resolv.conf(5)).
//!
//! `resolver` gives the text of parts; a part is what one lease, or one static address, says.
#![tactic(auto)]

mod laws;
mod order;
mod part;
mod resolver_lines;
mod texts;

pub use laws::{parts_are_ordered, texts_are_lines};
pub use part::{Family, Part, Server};
pub use resolver_lines::resolver;
