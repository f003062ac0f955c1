//! Keys in strictly ascending order in a vector, found by a search that counts its comparisons.
#![tactic(auto)]

mod first;
mod ledger;
mod merge;
mod ordered;
mod search;
mod steps;

pub use first::first_from;
pub use ledger::{Counted, Ledger, Plain};
pub use merge::{beyond, beyond_into};
pub use ordered::{add, put_in, take_out};
pub use search::find;
pub use steps::Steps;
