//! Why a leased address may be held, in what the turns of a life show.
#![tactic(auto)]

mod laws;

pub use laws::{
    a_kept_lease_is_not_held_at_first, disturbed_kept_leases_end, disturbed_leases_end,
    each_message_is_own, foreign_replies_give_nothing, held_leases_have_a_basis,
    kept_leases_are_asked_for_alone, kept_leases_need_their_file, leases_are_asked_for,
    leases_are_granted, leases_end, leases_end_by_own_messages, leases_need_a_new_request,
    leases_need_three_probes, other_interfaces_give_nothing, own_messages_alone_are_read,
    refused_leases_end, seven_turns_grant_a_lease, the_newest_lease_counts,
};
