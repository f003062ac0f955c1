//! The DHCPv4 client of one interface (RFC 2131, section 4.4): it acquires a lease, checks its address by conflict
//! detection, renews and rebinds it, and gives it up.
#![tactic(auto)]

mod answers;
mod client;
mod constants;
mod detection;
mod hearing;
mod inputs;
mod laws;
mod leases;
mod moments;
mod options;
mod saying;
mod setup;
mod states;
mod steps;
mod ticking;

pub use answers::{Arrival4, is_unexpired, reply_in};
pub use client::{
    Client4, Out4, ask4, carrier4, client4_new, heard_arp4, heard4, held4, kept4, rebind4,
    release4, unsent4,
};
pub use constants::times_are_those_of_rfc_2131;
pub use laws::{
    ends_at_expiry, holds_granted, ignores_foreign, keeps_origins, probes_first, stands_alone,
    stays_sound, wakes_in_time,
};
pub use moments::Backoff;
pub use setup::{Set4, Site4};
pub use states::{
    Answer4, Carrier, Exchange4, Keep4, News4, Origin4, Say4, State4, Step4, Tell, To4, Turn4,
};
