//! The laws that a judge of DHCPv6 leases tells their basis. These functions do nothing: their contracts are the laws.

ghost use Rattle.lease6_judge.specs.Laws.{AddressesAreJudged, FirstRepliesAreTold, ItemsAreTold};
ghost use Rattle.lease6_judge.specs.HeardLaws.{HeardItemsAreTold, HeldAddressesWereHeard, HeldWasHeard};

/// Law: after any turns the judge takes what comes for the first good Reply of an exchange exactly where it is that
/// (RFC 8415, sections 16.10 and 18.2.10).
pub fn first_replies_are_told()
    ensures { FirstRepliesAreTold }
{}

/// Law: so it holds an item of an IA at a moment exactly where the item has its basis (RFC 8415, section 18.2.10.1).
pub fn items_are_told()
    ensures { ItemsAreTold }
{}

/// Law: and an address has its basis exactly where the judge holds it for an IA_NA that the interface asks for.
pub fn addresses_are_judged()
    ensures { AddressesAreJudged }
{}

/// Law: by all Replies of an exchange an item is held exactly where these give it a basis (RFC 8415, section 18.2.10).
pub fn heard_items_are_told()
    ensures { HeardItemsAreTold }
{}

/// Law: what the first Replies alone give a basis, all Replies do.
pub fn what_is_held_was_heard()
    ensures items { HeldWasHeard }
    ensures addresses { HeldAddressesWereHeard }
{}
