//! What ought to happen does, where the network is as good as is stated.
//!
//! A leaf: no other crate stands on it.
#![tactic(auto)]

mod laws;

pub use laws::{
    interfaces_hold_link_local, link_local_is_held, link_local_premises_are_met,
    what_is_held_reaches_the_host, what_is_kept_reaches_its_file,
};
