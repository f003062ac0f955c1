//! What the judges of an interface tell together: which addresses rest on what it showed.
#![tactic(auto)]

mod judge;
mod keeping;
mod laws;
mod sharing;
mod speaking;

pub use audit_seats::Judge;
pub use judge::IfaceJudge;
pub use laws::{all_addresses_are_told, own_addresses_are_told, shared_addresses_are_told};
