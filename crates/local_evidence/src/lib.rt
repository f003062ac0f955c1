//! Why a link-local address may be held, in what the turns of a life show.
#![tactic(auto)]

mod laws;

pub use laws::{ends_by_another_address, needs_its_range, needs_three_probes};
