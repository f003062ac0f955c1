//! The numbers that the definitions take from the code. The function does nothing: its contract holds each of them.

ghost use Rattle.std.specs.Prelude.{◌≡◌, [], ◌∷◌};

use crate::sent::{CLIENT_PORT, EVERY_MAC, SERVER_PORT};
use crate::speaker::BROADCAST_FLAG;

/// Law: the ports are those of RFC 2131, section 4.1, and the flag that asks for broadcasts that of section 2.
pub fn numbers_are_those_assigned()
    ensures client_port { CLIENT_PORT ≡ 68 }
    ensures server_port { SERVER_PORT ≡ 67 }
    ensures broadcast_flag { BROADCAST_FLAG ≡ 32768 }
    ensures every_mac { EVERY_MAC.bytes ≡ 255 ∷ 255 ∷ 255 ∷ 255 ∷ 255 ∷ 255 ∷ [] }
{}
