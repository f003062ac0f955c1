//! That DHCPv6 gets what it asks for and keeps it, where turns and servers are as good as is stated.
//!
//! A leaf: no other crate stands on it.
#![tactic(auto)]

mod laws;

pub use laws::{
    held_items_stay, interfaces_hold_items, items_are_held_in_time, premises_of_items_are_met,
};
