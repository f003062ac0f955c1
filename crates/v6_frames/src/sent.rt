//! What a client says in one frame.

ghost use Rattle.std.specs.Prelude.{◌≡◌, IfOk};
ghost use Rattle.v6_frames.specs.Spelled as texts;

use net_types::{Mac, NoMemory};
use std::alloc::Global;
use udp_frame::dhcp6::{
    ALL_RELAY_AGENTS_AND_SERVERS, ALL_RELAY_AGENTS_AND_SERVERS_MAC, CLIENT_PORT, SERVER_PORT,
};
use udp_frame::{Ends6, build_udp6, link_local_of};
use v6_message::{Duid, Said6, write6};

/// The ends of what the client at the interface with this hardware address says: from its link-local address to
/// all servers and relay agents of the link (RFC 8415, section 13).
pub fn client_ends(mac: Mac) -> Ends6
    ensures { result ≡ texts.client_ends mac }
{
    Ends6 {
        from_mac: mac,
        to_mac: ALL_RELAY_AGENTS_AND_SERVERS_MAC,
        from: link_local_of(mac),
        to: ALL_RELAY_AGENTS_AND_SERVERS,
    }
}

/// The frame of the message of a client with this DUID, from the client's port to the servers'
/// (RFC 8415, section 7.2).
pub fn build6(alloc: Global, mac: Mac, said: &Said6, client: &Duid) -> Result<Vec<u8>, NoMemory>
    ensures { IfOk result (λ frame. frame.items ≡ texts.frame6_of (texts.sent_content mac said.now client.now)) }
{
    let message = write6(alloc, said, client)?;
    build_udp6(alloc, &client_ends(mac), CLIENT_PORT, SERVER_PORT, &message)
}
