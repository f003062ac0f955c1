//! What is true of a lab: the messages of its clients, what its peer has bound, and the leases that are held.
//! Definitions and their proofs, no code.
#![tactic(auto)]

mod laws;

pub use laws::{
    acks_are_heard, clients_live_apart, each_message_is_read, last_line_is_read,
    leases_end_with_their_bindings, messages_follow, no_address_is_held_twice, no_two_are_granted,
    numbers_are_unlike, requests_are_first, what_is_bound_lasts,
};
