//! The laws of the judge. These functions do nothing: their contracts are the laws.

ghost use Rattle.item_judge.specs.Judging.{AddressesAreGiven, PrefixesAreDelegated};
ghost use Rattle.item_judge.specs.Telling.{HeardIsTold, OpenIsTold};

/// Law: after any turns the judge keeps the exchange that is open then, and takes what comes for a good Reply exactly
/// where it is that (RFC 8415, sections 16.10 and 18.2.10).
pub fn exchanges_are_told()
    ensures open_one { OpenIsTold }
    ensures heard { HeardIsTold }
{}

/// Law: it gives an address exactly where that has its basis by all Replies (RFC 8415, section 18.2.10.1).
pub fn addresses_are_given()
    ensures { AddressesAreGiven }
{}

/// Law: and a prefix exactly where one of its IAID that the interface asks for has its basis.
pub fn prefixes_are_delegated()
    ensures { PrefixesAreDelegated }
{}
