//! What is true of every DHCPv6 client: what it keeps and holds; and what a Reply gives, and when the client acts next,
//! told in other words than the client's own, with the laws that both say the same.
#![tactic(auto)]

mod laws;

pub use laws::{
    holds_nothing_over6, holds_own_ias6, ignores_foreign6, keeps_granted6, keeps_origins6,
    replies_give_items, replies_tell_times, stays_sound6, wakes_in_time6,
};
