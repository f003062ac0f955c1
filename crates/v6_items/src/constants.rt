//! The numbers that the definitions take from the code. The function does nothing: its contract holds each of them.

ghost use Rattle.std.specs.Prelude.{◌≡◌};

use crate::times::{FOREVER, LEAST_TIME, SECOND, T1_PART, T2_PART};

/// Law: items are renewed and rebound by the numbers of RFC 8415, sections 7.7 and 14.2, and no sooner than the client's
/// own least time: times in milliseconds, parts in thousandths.
pub fn lifetimes_are_those_of_rfc_8415()
    ensures second { SECOND ≡ 1000 }
    ensures forever { FOREVER ≡ 4294967295 }
    ensures least_time { LEAST_TIME ≡ 10000 }
    ensures t1_part { T1_PART ≡ 500 }
    ensures t2_part { T2_PART ≡ 800 }
{}
