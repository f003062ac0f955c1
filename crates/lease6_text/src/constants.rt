//! The numbers that the definitions take from the code. The function does nothing: its contract holds each of them.

ghost use Rattle.std.specs.Prelude.{◌≡◌, [], ◌∷◌};

use crate::form::KEPT_CODES6;
use crate::lease::{
    ADDRESS_LEN, IA_LIMIT, ITEM_LIMIT, LONGEST_DELEGATED, MOMENT6_LIMIT, SHORTEST_DELEGATED,
};

/// Law: moments are below 10^16 milliseconds, a lease has six associations at most and each four items, an address has
/// 128 bits, and a delegated prefix 8 to 127.
pub fn bounds_of_leases()
    ensures moment6_limit { MOMENT6_LIMIT ≡ 10000000000000000 }
    ensures ia_limit { IA_LIMIT ≡ 6 }
    ensures item_limit { ITEM_LIMIT ≡ 4 }
    ensures address_len { ADDRESS_LEN ≡ 128 }
    ensures shortest_delegated { SHORTEST_DELEGATED ≡ 8 }
    ensures longest_delegated { LONGEST_DELEGATED ≡ 127 }
    ensures kept_codes { KEPT_CODES6 ≡ 23 ∷ 24 ∷ [] }
{}
