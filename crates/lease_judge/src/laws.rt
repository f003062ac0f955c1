//! The laws that a judge of leases tells their basis. These functions do nothing: their contracts are the laws.

ghost use Rattle.lease_judge.specs.Laws.{BasesAreJudged, GrantsAreJudged, LeasesAreJudged, ProbesAreJudged};

/// Law: after any turns the judge has a grant exactly where the basis of a lease has it, of the same exchange and on
/// the same terms (RFC 2131, sections 3.1 and 4.4).
pub fn grants_are_judged()
    ensures { GrantsAreJudged }
{}

/// Law: an address has its basis as a leased one exactly where the judge's grant gives it and isn't over, and the
/// address was probed, unless none is to be (RFC 2131, section 4.4.1).
pub fn bases_are_judged()
    ensures { BasesAreJudged }
{}

/// Law: after any turns an address was probed (RFC 5227, section 2.1.1), each turn after that of the first probe being
/// calm, exactly where the judge has it so.
pub fn probes_are_judged()
    ensures { ProbesAreJudged }
{}

/// Law: an address has its basis as a leased one exactly where the judge's test says so.
pub fn leases_are_judged()
    ensures { LeasesAreJudged }
{}
