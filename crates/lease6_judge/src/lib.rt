//! What tells, a turn at a time, how long an item of a DHCPv6 lease is held: definitions and their proof, no code.
#![tactic(auto)]

mod laws;

pub use laws::{
    addresses_are_judged, first_replies_are_told, heard_items_are_told, items_are_told,
    what_is_held_was_heard,
};
