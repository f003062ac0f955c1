//! Which static addresses of an interface stand on their basis, turn by turn.
#![tactic(auto)]

mod judge;
mod laws;

pub use judge::StaticJudge;
pub use laws::static_addresses_have_bases;
