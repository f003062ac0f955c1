//! The variables of a hook job, as text: what a script is told of its interface, of what was held before and of what is
//! held now, whatever a server sent (dhcpcd-run-hooks(8)).
//!
//! `job` makes the job of a situation.
#![tactic(auto)]

mod constants;
mod forms;
mod jobs;
mod lists;
mod situation;
mod telling;
mod telling4;
mod telling6;
mod variables;

pub use constants::variables_are_these;
pub use jobs::{job, lease_vars, lease6_vars};
pub use situation::{Held, Situation, Stage};
pub use variables::{JobVariable, Lease6Variable, NetVariable};
