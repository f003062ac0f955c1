//! What is true of every configuration: a text has one; what it sets for interfaces is within the bounds that their
//! clients rely on; and the shares of a delegated prefix obey the rules.
#![tactic(auto)]

mod laws;

pub use laws::{configuration_is_one, settings_fit, shares_are_planned};
