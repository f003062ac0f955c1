//! The machines of one managed interface: how each begins, acts, hears and stops, the frames that it asks to offer, what
//! is new by it, and what hooks are told of that.
//!
//! `Outs` takes in what they say, in order. Moments are in milliseconds since 1970.
#![tactic(auto)]

mod beginnings;
mod codes;
mod dhcp4;
mod dhcp6;
mod inputs;
mod local;
mod news;
mod outs;
mod packets;
mod sharing;
mod telling;

pub use beginnings::Beginning;
pub use dhcp4::{
    ask_of, begin_dhcp4, client_of, drop_dhcp4, hear_message, hear_packet, rebind_dhcp4,
    runs_dhcp4, settings_of, stop_dhcp4, tick_dhcp4,
};
pub use dhcp6::{
    asks_of, begin_dhcp6, client6_of, contest, drop_dhcp6, hear_message6, rebind_dhcp6, runs_dhcp6,
    stop_dhcp6, tick_dhcp6,
};
pub use inputs::{Turn, TurnInput};
pub use local::{arm_unless_held, begin_local, drop_local, hear_local, tick_local};
pub use outs::{Outs, Sending, Told};
pub use packets::arp_in_frame;
pub use sharing::{first_address, shares_of};
pub use telling::{event_job, metric_of};
