//! What the lines of a configuration say together (dhcpcd.conf(5)): those in front of all blocks, or those in the blocks
//! of one interface, and how much they may say.
#![tactic(auto)]

mod constants;
mod counting;
mod flags;
mod scope;
mod statics;
mod times;

pub use constants::bounds_of_scopes;
pub use counting::{Counts, MOST_BLOCKS, has_ia, is_repeated, is_same_kind, is_too_much};
pub use scope::Scope;
pub use statics::Statics;
pub use times::TimesSaid;
