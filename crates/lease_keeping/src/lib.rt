//! A lease of DHCPv4 that is held stays so, where the network is as good as is stated.
//!
//! A leaf: no other crate stands on it.
#![tactic(auto)]

mod laws;

pub use laws::{keeping_premises_are_met, leases_stay_held};
