//! One managed interface in a life: its carrier, and what a turn makes of it and of its machines.
//!
//! `iface_open` at the start of a life, then `iface_turn` in each turn. Moments are in milliseconds since 1970.
#![tactic(auto)]

mod interfaces;
mod turns;

pub use iface_machines::{
    Beginning, Outs, Sending, Told, Turn, TurnInput, event_job, first_address, metric_of,
    runs_dhcp4, runs_dhcp6, shares_of,
};
pub use interfaces::{
    contains, earlier_of, iface_due, iface_held, iface_kept, iface_kept6, iface_lease,
    iface_lease6, iface_open, look, machine_due,
};
pub use turns::{iface_input, iface_tick, iface_turn, iface_unsent};
