//! The numbers that the definitions take from the code. The function does nothing: its contract holds each of them.

ghost use Rattle.std.specs.Prelude.{◌≡◌};

use crate::counting::{MOST_BLOCKS, MOST_IAS, MOST_MEMBERS, MOST_SHARES, MOST_WORDS};

/// Law: how much a configuration may say of each kind.
pub fn bounds_of_scopes()
    ensures most_blocks { MOST_BLOCKS ≡ 64 }
    ensures most_words { MOST_WORDS ≡ 64 }
    ensures most_ias { MOST_IAS ≡ 6 }
    ensures most_shares { MOST_SHARES ≡ 32 }
    ensures most_members { MOST_MEMBERS ≡ 16 }
{}
