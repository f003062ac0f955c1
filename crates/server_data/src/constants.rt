//! The numbers that the definitions take from the code. The function does nothing: its contract holds each of them.

ghost use Rattle.std.specs.Prelude.{◌≡◌, [], ◌∷◌};

use crate::field::{BOOT_REPLY, ETHERNET, MAC_LEN, MAGIC_COOKIE, NETMASK};
use crate::framing::{SERVER, SERVER_MAC};

/// Law: a server's message is a BOOTREPLY over Ethernet with the cookie of RFC 2131, section 3, and its network has 24
/// bits.
pub fn fields_are_those_assigned()
    ensures boot_reply { BOOT_REPLY ≡ 2 }
    ensures ethernet { ETHERNET ≡ 1 }
    ensures mac_len { MAC_LEN ≡ 6 }
    ensures magic_cookie { MAGIC_COOKIE ≡ 99 ∷ 130 ∷ 83 ∷ 99 ∷ [] }
    ensures netmask { NETMASK.number ≡ 4294967040 }
{}

/// Law: the server of tests and measures is 10.0.0.1, at a hardware address of its own.
pub fn server_is_this_one()
    ensures server { SERVER.number ≡ 167772161 }
    ensures server_mac { SERVER_MAC.bytes ≡ 2 ∷ 0 ∷ 0 ∷ 0 ∷ 0 ∷ 254 ∷ [] }
{}
