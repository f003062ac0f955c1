//! How far the addresses of an interface were probed, kept turn by turn in a table.
#![tactic(auto)]

mod inputs;
mod table;
mod targets;
mod times;

pub use inputs::{arp_on, carrier_after, is_contest, is_use};
pub use table::{ProbeTable, Probing};
pub use targets::probed_targets;
pub use times::{ProbeTimes, ProbeTurn, is_past};
