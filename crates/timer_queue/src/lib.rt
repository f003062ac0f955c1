//! When each key is due, of those below a number. The queue tells the earliest moment at once, and changes that of a
//! key by two searches.
#![tactic(auto)]

mod queue;
mod timer;

pub use counted_search::{Counted, Ledger, Plain, Steps};
pub use queue::Queue;
