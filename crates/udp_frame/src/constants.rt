//! The numbers that the definitions take from the code. The function does nothing: its contract holds each of them.

ghost use Rattle.std.specs.Prelude.{◌≡◌, [], ◌∷◌};

use crate::dhcp6::{
    ALL_RELAY_AGENTS_AND_SERVERS, ALL_RELAY_AGENTS_AND_SERVERS_MAC, CLIENT_PORT, SERVER_PORT,
};
use crate::udp4::KIND_IPV4;
use crate::udp6::KIND_IPV6;

/// Law: EtherTypes are those of RFC 894 and RFC 2464, section 3; ports and the group of servers those of RFC 8415,
/// sections 7.1 and 7.2.
pub fn numbers_are_those_assigned()
    ensures kind_ipv4 { KIND_IPV4 ≡ 2048 }
    ensures kind_ipv6 { KIND_IPV6 ≡ 34525 }
    ensures client_port { CLIENT_PORT ≡ 546 }
    ensures server_port { SERVER_PORT ≡ 547 }
    ensures group { ALL_RELAY_AGENTS_AND_SERVERS.number ≡ 338963523518870617245727861364146372610 }
    ensures group_mac { ALL_RELAY_AGENTS_AND_SERVERS_MAC.bytes ≡ 51 ∷ 51 ∷ 0 ∷ 1 ∷ 0 ∷ 2 ∷ [] }
{}
