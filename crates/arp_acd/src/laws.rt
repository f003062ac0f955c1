//! Laws of conflict detection: an address passes only after three probes and two seconds of quiet, and one in use
//! that is contested twice within ten seconds is given up.

ghost use Rattle.arp_acd.specs.Laws.{GivesUpContestedTwice, PassesAfterProbes};

/// Law: no address passes before three probes were sent, a second or more apart, and two seconds of
/// quiet. A probe whose send failed isn't counted (RFC 5227, section 2.1.1).
pub fn passes_after_probes()
    ensures { PassesAfterProbes }
{}

/// Law: an address in use that is contested twice within ten seconds is given up (RFC 5227,
/// section 2.4).
pub fn gives_up_contested_twice()
    ensures { GivesUpContestedTwice }
{}
