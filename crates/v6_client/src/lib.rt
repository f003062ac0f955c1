//! The DHCPv6 client of one interface (RFC 8415, section 18.2): it acquires addresses and delegated prefixes from one
//! server, renews and rebinds them, declines an address that another host uses, and gives all of them up.
#![tactic(auto)]

mod answers;
mod client;
mod constants;
mod exchange;
mod hearing;
mod holding;
mod inputs;
mod keeping;
mod laws;
mod leases;
mod parting;
mod saying;
mod setup;
mod states;
mod steps;
mod ticking;
mod times;
mod turn;
mod xid;

pub use answers::{has_bytes, is_duid};
pub use client::{
    Client6, Out6, carrier6, client6_new, duid6, duplicate6, heard6, held6, kept6, rebind6,
    release6,
};
pub use constants::times_are_those_of_rfc_8415;
pub use exchange::Exchange6;
pub use laws::{calls_run6, keeps_settings6, quiet_steps_keep6};
pub use leases::Plea6;
pub use setup::{Set6, Site6};
pub use states::{Answer6, Carrier6, Keep6, News6, Say6, State6, Step6, Tell6};
pub use turn::Turn6;
