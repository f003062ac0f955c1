//! The laws that a judge of kept leases tells their basis. These functions do nothing: their contracts are the laws.

ghost use Rattle.kept_judge.specs.Laws.{AddressesAreKept4, AddressesAreKept6, ItemsAreKept6};

/// Law: after any turns the judge holds an address for the kept lease of DHCPv4 exactly where the address has its basis
/// by that lease (RFC 2131, sections 3.2 and 4.3.2).
pub fn kept_addresses_are_judged4()
    ensures { AddressesAreKept4 }
{}

/// Law: it holds an item for the kept lease of DHCPv6 exactly where the item has its basis by that lease (RFC 8415,
/// section 18.2.12).
pub fn kept_items_are_judged()
    ensures { ItemsAreKept6 }
{}

/// Law: so with an address of an IA_NA of that lease.
pub fn kept_addresses_are_judged6()
    ensures { AddressesAreKept6 }
{}
