//! The laws that a link-local address has a basis only after three probes, only within the range for such addresses,
//! and no longer once another address is announced in its place.

ghost use Rattle.local_evidence.specs.LinkLocalBasis.{EndsByAnother, NeedsItsRange, NeedsThreeProbes};

/// Law: no link-local address has a basis before the link took three probes for it (RFC 5227, section 2.1.1).
pub fn needs_three_probes()
    ensures { NeedsThreeProbes }
{}

/// Law: nor has one outside the range of addresses that a host may choose by itself (RFC 3927, section 2.1).
pub fn needs_its_range()
    ensures { NeedsItsRange }
{}

/// Law: nor has one once another address is announced in its place (RFC 3927, section 2.5).
pub fn ends_by_another_address()
    ensures { EndsByAnother }
{}
