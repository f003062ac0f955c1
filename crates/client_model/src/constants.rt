//! The numbers that the definitions take from the code. The function does nothing: its contract holds each of them.

ghost use Rattle.std.specs.Prelude.{◌≡◌};

use crate::asking::{BY_DUID, ETHERNET};

/// Law: the types with which identifiers of clients begin are those of RFC 2132, section 9.14, and RFC 4361, section
/// 6.1.
pub fn types_of_identifiers_are_those_assigned()
    ensures ethernet { ETHERNET ≡ 1 }
    ensures by_duid { BY_DUID ≡ 255 }
{}
