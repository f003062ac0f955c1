//! What the client is over its interfaces: what a turn makes of each, the frames that they send, the rows that they
//! want.
#![tactic(auto)]

mod asking;
mod constants;
mod interfaces;
mod laws;
mod machines;
mod steps;

pub use asking::{BY_DUID, ETHERNET, WANTED_CODES};
pub use constants::types_of_identifiers_are_those_assigned;
pub use interfaces::Iface;
pub use laws::{
    interfaces_run_apart, kept_rows_are_unlike, kept_texts_are_leases, kept_texts_are_leases6,
    options_are_asked_for_rightly, other_inputs_are_quiet, own_inputs_alone_count,
    rows_and_leases_stay_in_quiet_turns, the_hosts_duid_fits, wanted_rows_can_be_wanted,
    what_is_asked_fits,
};
pub use machines::TimedMachine;
pub use steps::News;
