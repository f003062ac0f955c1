//! The numbers that the definitions take from the code. The function does nothing: its contract holds each of them.

ghost use Rattle.std.specs.Prelude.{◌≡◌};

use crate::binding::SECOND;
use crate::pool::POOL_LIMIT;

/// Law: a pool has at most 256 addresses, and moments are in milliseconds.
pub fn peer_numbers_are_these()
    ensures pool_limit { POOL_LIMIT ≡ 256 }
    ensures second { SECOND ≡ 1000 }
{}
