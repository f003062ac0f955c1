//! The options of a DHCPv6 message (RFC 8415, section 21): whole at each depth or refused at a place, walked
//! without a copy; the IAs with their addresses and prefixes; and the readers of servers and of search lists.
#![tactic(auto)]

mod area;
pub mod code;
mod constants;
mod deep;
mod duid;
mod ia;
mod ia_view;
mod laws;
pub mod layout;
mod options;
mod readers;
mod status;

pub use constants::codes_are_those_assigned;
pub use deep::{Malformed, check_options};
pub use duid::Duid;
pub use ia::{IaKind, IaSaid, ItemSaid};
pub use ia_view::{IaView, IaViews, Items, ia_views};
pub use laws::option_law;
pub use options::{OptionView, Options, first_value, options_of};
pub use readers::{are_servers6, dns6_of, is_search6, search6_of};
pub use status::{Status, status_of};
