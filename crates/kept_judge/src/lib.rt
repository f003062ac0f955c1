//! What tells, a turn at a time, that a lease of an earlier life may be held while servers are asked for it again.
#![tactic(auto)]

mod asking4;
mod asking6;
mod items6;
mod laws;
mod standing;
mod staying;

pub use laws::{kept_addresses_are_judged4, kept_addresses_are_judged6, kept_items_are_judged};
pub use standing::{Asked4, Asked6, Kept4, Kept6, Spoken6};
