//! The numbers that the definitions take from the code. The function does nothing: its contract holds each of them.

ghost use Rattle.std.specs.Prelude.{◌≡◌};

use crate::identifiers::{LEAST_PAIRS, MOST_PAIRS, TYPED_TEXT_LIMIT};
use crate::texts::TEXT_LIMIT;

/// Law: an identifier has 2 to 255 bytes in pairs of digits, or a type and 254 of text; other texts have 255.
pub fn bounds_of_values()
    ensures least_pairs { LEAST_PAIRS ≡ 2 }
    ensures most_pairs { MOST_PAIRS ≡ 255 }
    ensures typed_text_limit { TYPED_TEXT_LIMIT ≡ 254 }
    ensures text_limit { TEXT_LIMIT ≡ 255 }
{}
