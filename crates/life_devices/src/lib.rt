//! All that a life runs over, seen as one: what it may ask of its devices, these put together, and how a line is said.
#![tactic(auto)]

mod devices;
mod outside;
mod saying;

pub use devices::Devices;
pub use outside::Outside;
pub use saying::{say, say_change, say_listing};
