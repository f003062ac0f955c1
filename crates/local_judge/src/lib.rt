//! What is kept of an address turn by turn, so that the basis of a link-local address can be told from it.
#![tactic(auto)]

mod announcements;
mod choices;
mod judge;
mod laws;

pub use announcements::is_alone;
pub use choices::{Choice, ChoiceTurn};
pub use judge::{Chosen, LocalJudge, goes_on};
pub use laws::{choices_are_told, chosen_have_bases, probes_are_told};
pub use probe_table::{ProbeTable, carrier_after, is_past};
