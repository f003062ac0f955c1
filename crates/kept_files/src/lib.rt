//! What files keep from one life to the next, read: the leases of an interface, and the DUID of the host.
#![tactic(auto)]

mod duids;
mod leases4;
mod leases6;
mod names;

pub use duids::host_duid;
pub use leases4::kept4_in;
pub use leases6::kept6_in;
