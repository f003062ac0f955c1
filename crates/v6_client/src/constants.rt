//! The numbers that the definitions take from the code. The function does nothing: its contract holds each of them.

ghost use Rattle.std.specs.Prelude.{◌≡◌};

use crate::answers::{LEAST_SOL_MAX, MOST_SOL_MAX};
use crate::exchange::LONGEST_TIME;
use crate::hearing::HIGHEST_PREFERENCE;
use crate::times::{DELAY_SPREAD, RESTART_TIME};

/// Law: the client keeps the numbers of RFC 8415, sections 7.6, 18.2.1, 21.8 and 21.24: times in milliseconds, those
/// of SOL_MAX_RT in seconds.
pub fn times_are_those_of_rfc_8415()
    ensures least_sol_max { LEAST_SOL_MAX ≡ 60 }
    ensures most_sol_max { MOST_SOL_MAX ≡ 86400 }
    ensures longest_time { LONGEST_TIME ≡ 4294967295 }
    ensures highest_preference { HIGHEST_PREFERENCE ≡ 255 }
    ensures delay_spread { DELAY_SPREAD ≡ 1001 }
    ensures restart_time { RESTART_TIME ≡ 10000 }
{}
