//! The numbers that the definitions take from the code. The function does nothing: its contract holds each of them.

ghost use Rattle.std.specs.Prelude.{◌≡◌};

use crate::kind::{ACK, DECLINE, DISCOVER, INFORM, NAK, OFFER, RELEASE, REQUEST};

/// Law: the types of messages are those of RFC 2132, section 9.6.
pub fn kinds_are_those_assigned()
    ensures discover { DISCOVER ≡ 1 }
    ensures offer { OFFER ≡ 2 }
    ensures request { REQUEST ≡ 3 }
    ensures decline { DECLINE ≡ 4 }
    ensures ack { ACK ≡ 5 }
    ensures nak { NAK ≡ 6 }
    ensures release { RELEASE ≡ 7 }
    ensures inform { INFORM ≡ 8 }
{}
