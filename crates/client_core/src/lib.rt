//! The client over all its interfaces: how it opens, what an input does to it, and the rows it wants.
#![tactic(auto)]

mod address_rows;
mod clients;
mod due_queue;
mod dues;
mod effects;
mod hook_jobs;
mod iface_rows;
mod iface_tables;
mod kept;
mod kept_values;
mod lease6_rows;
mod lease_rows;
mod named;
mod places;
mod resolver_parts;
mod resting;
mod same_parts;
mod share_rows;
mod told_parts;
mod turning;

pub use clients::{
    Core, Opened, Stepped, core_due, core_open, ifaces, kept4, kept6, resolver_wanted, rows, step,
};
pub use effects::{Resolver, Touched};
pub use host_tables::Diff;
pub use iface_core::{
    Beginning, Outs, Sending, Turn, TurnInput, earlier_of, runs_dhcp4, runs_dhcp6,
};
