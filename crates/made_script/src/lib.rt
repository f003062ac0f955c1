//! A script of its own: the interfaces of a host get leases at once, and renew them again and again. Living it measures
//! what turns cost.
#![tactic(auto)]

mod constants;
mod frames;
mod hosts;
mod laws;
mod script;
mod turns;

pub use constants::measures_are_these;
pub use laws::{made_configuration_is_good, made_scripts_fit};
pub use script::made_script;
pub use turns::MOST_ROUNDS;
