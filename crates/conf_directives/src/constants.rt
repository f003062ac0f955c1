//! The numbers that the definitions take from the code. The function does nothing: its contract holds each of them.

ghost use Rattle.std.specs.Prelude.{◌≡◌};

use crate::shares::{LEAST_HINT, LEN_LIMIT, USUAL_LEN};
use crate::valued::SECONDS_LIMIT;

/// Law: a delegated prefix is asked for with 8 to 127 bits, 64 where none are said; times are a day at most.
pub fn bounds_of_arguments()
    ensures usual_len { USUAL_LEN ≡ 64 }
    ensures len_limit { LEN_LIMIT ≡ 128 }
    ensures least_hint { LEAST_HINT ≡ 8 }
    ensures seconds_limit { SECONDS_LIMIT ≡ 86401 }
{}
