//! A script made of a capture of packets, in the form of pcap.
#![tactic(auto)]

mod constants;
mod forms;
mod packets;
mod script;

pub use constants::layout_of_captures;
pub use forms::{CaptureCause, Form, Fraction, Order};
pub use script::{ImportAnswer, import};
