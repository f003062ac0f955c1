//! The turn of a transcript that goes on, and the addresses that are shown, as lines tell them.
#![tactic(auto)]

mod going;
mod laws;
mod telling;

pub use going::Going;
pub use laws::what_goes_on_is_the_lifes;
