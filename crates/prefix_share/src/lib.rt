//! Shares of a delegated prefix: which subnet each interface gets of it (RFC 8415, section 6.3; RFC 3633,
//! section 12.1).
//!
//! `plan` judges the shares that a line of the configuration asks for; `subnet` gives a share's part of a prefix.
#![tactic(auto)]

mod laws;
mod rules;
mod share;
mod subnets;

pub use laws::{planned_shares_are_apart, planned_shares_fit, subnets_are_of_the_prefix};
pub use rules::{ShareCause, ShareFault, plan};
pub use share::Share;
pub use subnets::{network_number, subnet};
