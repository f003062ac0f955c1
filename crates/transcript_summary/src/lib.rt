//! The summary of a transcript.
#![tactic(auto)]

mod counting;

pub use counting::summary;
