//! The promises of link-local addresses: they are chosen in range, held only once probed and while no two conflicts
//! came close together, and after many conflicts the next choice waits.

ghost use Rattle.ipv4ll.specs.Laws.{ChoosesInRange, HoldsProbed, WaitsFromTenConflicts};

/// Law: every chosen address lies in 169.254.1.0 to 169.254.254.255 (RFC 3927, section 2.1).
pub fn chooses_in_range()
    ensures { ChoosesInRange }
{}

/// Law: from the tenth conflict on a minute passes before the next choice (RFC 3927, section 2.2.1).
pub fn waits_from_ten_conflicts()
    ensures { WaitsFromTenConflicts }
{}

/// Law: an address is held only after its probes, and while no two conflicts over it were less than ten
/// seconds apart (RFC 3927, sections 2.2.1 and 2.5).
pub fn holds_probed()
    ensures { HoldsProbed }
{}
