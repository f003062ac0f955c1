//! Whose a kept lease was, and when it was confirmed, over the life of an interface: definitions and proofs, no code.
//!
//! A leaf: no other crate stands on it.
#![tactic(auto)]

mod laws;

pub use laws::{
    kept_leases4_tell_their_origin, kept_leases6_are_granted, kept_leases6_tell_their_origin,
};
