//! Where the network is as good as is stated, a lease of DHCPv4 is acquired in time.
#![tactic(auto)]

mod laws;

pub use laws::{leases_are_acquired, premises_are_met};
