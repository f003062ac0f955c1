//! Interfaces as datagrams between two ports of the loopback address, over any machine that has a socket there and
//! clocks, and the waits for what comes there. The end of a child that hooks run ends a wait.
#![tactic(auto)]

mod constants;
mod datagrams;
mod links;
mod loopback;
mod moments;
mod salts;
mod watching;

pub use constants::{datagrams_are_these, loopback_is_this, salts_are_these};
pub use links::LoopLink;
pub use loopback::{LinkNote, Loopback};
pub use salts::Salts;
pub use watching::{Seen, Watch};
