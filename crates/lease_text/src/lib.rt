//! Leases: what a server grants and a client keeps, and the bounds within which a lease has a text. The text has two
//! versions; the second one tells where the lease comes from.
//!
//! The values of options are kept as they came, each checked once for the form that its code asks for.
#![tactic(auto)]

mod constants;
mod laws;
mod lease;
mod printing;
mod reading;
mod typed;

pub use constants::bounds_of_leases;
pub use laws::leases_are_read_back;
pub use lease::{
    INFINITE_LEASE, LONGEST_PREFIX, Lease4, Origin, Terms4, VALUE_LIMIT, Value, copied_values,
    is_host_address,
};
pub use line_grammar::{AppendField, Below, append_line, read_line};
pub use printing::{append_values, print4};
pub use reading::{LeaseFault, read_lease4};
pub use typed::lease_is_typed;
