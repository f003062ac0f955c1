//! The interfaces of a life under audit, each with its judge, and whether the addresses shown rest on the turns.
#![tactic(auto)]

mod concern;
mod judge;
mod rows;
mod seat;
mod seats;

pub use concern::concerns;
pub use judge::Judge;
pub use rows::first_lacking;
pub use seat::Seat;
pub use seats::{Watched, all_first, all_turned};
