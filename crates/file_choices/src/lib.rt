//! What may be left of each file of a store, by the calls that were made of it. Definitions, and the laws about them.
#![tactic(auto)]

mod laws;

pub use laws::calls_in_turn_leave_whole_files;
