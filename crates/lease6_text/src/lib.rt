//! DHCPv6 leases: what a server grants and a client keeps, and the bounds within which a lease has a text.
//!
//! The values of options are kept as they came, each checked once for the form that its code asks for.
#![tactic(auto)]

mod constants;
mod form;
mod laws;
mod lease;
mod parts;
mod printing;
mod reading;
mod typed;

pub use constants::bounds_of_leases;
pub use form::{KEPT_CODES6, is_kept6, is_well_formed6};
pub use laws::leases6_are_read_back;
pub use lease::{
    ADDRESS_LEN, IA_LIMIT, ITEM_LIMIT, IaLease, Item6, LONGEST_DELEGATED, Lease6, MOMENT6_LIMIT,
    SHORTEST_DELEGATED,
};
pub use lease_text::{Origin, Value, copied_values};
pub use printing::print6;
pub use reading::read_lease6;
pub use typed::lease6_is_typed;
