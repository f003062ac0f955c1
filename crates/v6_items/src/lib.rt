//! The items of a DHCPv6 client, which are the addresses and prefixes of its IAs (RFC 8415, section 12): which of a
//! server's message are read, how a Reply is taken, which go and which stay, when they are renewed, and which the client's
//! messages name.
#![tactic(auto)]

mod asking;
mod asks;
mod constants;
mod items;
mod reading;
mod renewing;
mod scope;
mod taking;
mod times;

pub use asking::{
    ias_asked, ias_copied, ias_declined, ias_lapsed, ias_offered, ias_released, ias_solicited,
};
pub use asks::IaAsk;
pub use constants::lifetimes_are_those_of_rfc_8415;
pub use items::{dates_of, ias_of, is_same_kind, parting_of, pruned_ias, without};
pub use reading::{ia_for, is_for, is_readable, is_unbound, read_item, saids_of, serves};
pub use renewing::Spans6;
pub use scope::{Cause6, Dates6, Parting6, Scope6};
pub use taking::{Meeting6, lease_granted};
pub use times::{SECOND, earlier};
