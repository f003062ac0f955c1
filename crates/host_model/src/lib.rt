//! What the host is asked in a turn, and what its table of addresses and routes holds then.
#![tactic(auto)]

mod changes;
mod laws;

pub use changes::HostChange;
pub use laws::a_turn_brings_the_wanted_rows;
