//! An address out of a delegated prefix that is held on another interface, with its basis: a life that is written out.
//!
//! A leaf: no other crate stands on it.
#![tactic(auto)]

mod laws;

pub use laws::four_messages_give_a_share;
