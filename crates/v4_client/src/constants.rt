//! The numbers that the definitions take from the code. The function does nothing: its contract holds each of them.

ghost use Rattle.std.specs.Prelude.{◌≡◌};

use crate::moments::{
    DELAY_SPREAD, LEAST_DELAY, LEAST_RENEWAL_WAIT, REFUSED_WAIT, SECOND, SECS_LIMIT, WAIT_SPREAD,
};

/// Law: the client keeps the times of RFC 2131, sections 3.1, 4.1, 4.4.1 and 4.4.5, in milliseconds. The two spreads
/// count their last value; `secs` has 16 bits.
pub fn times_are_those_of_rfc_2131()
    ensures second { SECOND ≡ 1000 }
    ensures wait_spread { WAIT_SPREAD ≡ 2001 }
    ensures least_delay { LEAST_DELAY ≡ 1000 }
    ensures delay_spread { DELAY_SPREAD ≡ 9001 }
    ensures refused_wait { REFUSED_WAIT ≡ 10000 }
    ensures least_renewal_wait { LEAST_RENEWAL_WAIT ≡ 60000 }
    ensures secs_limit { SECS_LIMIT ≡ 65535 }
{}
