//! The words of `live`: two ports, a folder, a script, and the interfaces.
#![tactic(auto)]

mod command;
mod iface_words;
mod listed;
mod places;
mod reading;

pub use listed::Interfaces;
pub use places::Ports;
pub use reading::{LiveWords, read_live};
