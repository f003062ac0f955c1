//! The laws that an address rests on the turns that are told. These functions do nothing: their contracts are the laws.

ghost use Rattle.basis_turns.specs.BasisShown.{FoundAreShown, ShownHaveBases};
ghost use Rattle.basis_turns.specs.Laws.{FoundLeasesAreShown, FoundLocalsAreShown};
ghost use Rattle.basis_turns.specs.LeaseShown.{ShownLeasesHaveBases};

/// Law: where the turns of a lease are told, the address has its basis as a leased one (RFC 2131, section 4.4.1).
pub fn shown_leases_have_bases()
    ensures { ShownLeasesHaveBases }
{}

/// Law: turns are told exactly where an address has that basis, and they are its turns.
pub fn found_leases_are_shown()
    ensures { FoundLeasesAreShown }
{}

/// Law: so with a link-local address (RFC 3927, section 2.2.1).
pub fn found_locals_are_shown()
    ensures { FoundLocalsAreShown }
{}

/// Law: where a basis is told of an address, with its turns, the address has that basis.
pub fn shown_bases_are_bases()
    ensures { ShownHaveBases }
{}

/// Law: what is found of an address is its basis, on its turns, and one is found exactly where it has one but for a
/// lease of an earlier life.
pub fn found_bases_are_shown()
    ensures { FoundAreShown }
{}
