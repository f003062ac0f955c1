//! The laws that what is kept turn by turn tells exactly how long ago an address was probed up to three times, and
//! whether it has the basis of a link-local address.

ghost use Rattle.local_judge.specs.Judge.{ChosenHaveBases};
ghost use Rattle.local_judge.specs.Laws.{ChoicesAreTold, ProbesAreTold};

/// Law: a link-local address has its basis exactly where its choice stands in what is kept of it turn by turn
/// (RFC 3927, sections 2.2.1 and 2.5), and the fourth turn of that basis is the one that is kept with it.
pub fn choices_are_told()
    ensures { ChoicesAreTold }
{}

/// Law: an address was probed once, twice or three times (RFC 5227, section 2.1.1) so long before a moment exactly
/// where the earliest moment of a last such probe is so long ago.
pub fn probes_are_told()
    ensures { ProbesAreTold }
{}

/// Law: an address stands as one that was chosen exactly where it has the basis of a link-local one (RFC 3927, sections
/// 2.2.1 and 2.5).
pub fn chosen_have_bases()
    ensures { ChosenHaveBases }
{}
