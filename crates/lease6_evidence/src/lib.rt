//! Why an address of a DHCPv6 lease may be held, in what the turns of a life show.
#![tactic(auto)]

mod laws;

pub use laws::{
    addresses_are_asked_for, first_replies_alone_give_items, foreign_replies_give_no_items,
    four_messages_give_a_lease, held_items_are_asked_for, held_items_have_a_basis,
    idle_messages_give_no_items, items_are_given, items_are_named, items_end,
    items_end_when_unknown, items_end_when_withdrawn, items_end_with_a_duplicate,
    items_end_with_a_release, items_end_with_a_stop, items_end_with_the_carrier,
    items_held_at_first_are_kept, kept_items_are_asked_for, kept_items_are_not_held_at_first,
    kept_items_are_of_the_lease, kept_items_are_rebound, kept_items_end,
    kept_items_end_with_a_release, kept_items_end_with_a_reply, kept_items_end_with_a_stop,
    kept_items_end_with_the_carrier, kept_items_have_one_exchange, kept_items_have_ten_seconds,
    kept_items_need_an_origin, kept_items_need_the_flag, own_dhcp6_messages_alone_are_read,
    plain_items_are_given, unasked_replies_give_no_items,
};
