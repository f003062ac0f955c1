//! The numbers that the definitions take from the code. The function does nothing: its contract holds each of them.

ghost use Rattle.std.specs.Prelude.{◌≡◌};

use crate::timing::{
    ANNOUNCE_INTERVAL, ANNOUNCE_WAIT, DEFEND_INTERVAL, MAX_CONFLICTS, PROBE_MAX, PROBE_MIN,
    PROBE_NUM, PROBE_WAIT, RATE_LIMIT_INTERVAL,
};

/// Law: conflict detection keeps the times, in milliseconds, and the counts of RFC 5227, section 1.1.
pub fn timing_is_that_of_rfc_5227()
    ensures probe_wait { PROBE_WAIT ≡ 1000 }
    ensures probe_num { PROBE_NUM ≡ 3 }
    ensures probe_min { PROBE_MIN ≡ 1000 }
    ensures probe_max { PROBE_MAX ≡ 2000 }
    ensures announce_wait { ANNOUNCE_WAIT ≡ 2000 }
    ensures announce_interval { ANNOUNCE_INTERVAL ≡ 2000 }
    ensures max_conflicts { MAX_CONFLICTS ≡ 10 }
    ensures rate_limit_interval { RATE_LIMIT_INTERVAL ≡ 60000 }
    ensures defend_interval { DEFEND_INTERVAL ≡ 10000 }
{}
