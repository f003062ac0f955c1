//! Link-local addresses (RFC 3927): when no lease comes, an address of 169.254/16 is chosen, probed, held
//! and defended.
//!
//! `ll_off`, then `ll_arm`, `tick` at the due moments, `ll_heard` for each ARP packet, `ll_unsent` where
//! a frame could not be sent, and `ll_drop` where the address isn't wanted any more.
#![tactic(auto)]

mod laws;
mod link_local;

pub use laws::{chooses_in_range, holds_probed, waits_from_ten_conflicts};
pub use link_local::{
    Fallback, LinkLocal, LlNews, LlOut, Waits, ll_arm, ll_drop, ll_heard, ll_held, ll_off,
    ll_unsent,
};
