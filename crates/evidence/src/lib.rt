//! Why an address may be held: what a life shows of an interface, and what of it is evidence. Definitions, and the laws
//! about them.
#![tactic(auto)]

mod laws;

pub use laws::{
    addresses_end, addresses_have_a_basis, counted_interfaces_are_numbered,
    held_addresses_have_a_basis, kept_leases_are_own, openings_want_static_addresses_alone,
    seven_turns_give_a_basis, shares_have_their_bits, shares_need_a_prefix,
    static_addresses_need_carrier,
};
