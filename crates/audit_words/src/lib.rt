//! What an auditor is shown of a life: what is known of each interface when it begins, and its turns.
#![tactic(auto)]

mod shown;

pub use shown::{Entry, Offer, Site};
