//! A server's message in a frame.

ghost use Rattle.std.specs.Prelude.{◌≡◌, IfOk};
ghost use Rattle.server_data.specs.ServerFrames.{server_frame};

use crate::reply::Reply;
use crate::writing::server_data;
use net_types::{Ip4, Mac, NoMemory};
use std::alloc::Global;
use udp_frame::{Ends4, build_udp4};
use v4_frames::{CLIENT_PORT, SERVER_PORT};

/// The hardware address of the server.
pub const SERVER_MAC: Mac = Mac {
    bytes: [0x02, 0x00, 0x00, 0x00, 0x00, 0xfe],
};
/// 10.0.0.1, the address of the server.
pub const SERVER: Ip4 = Ip4 {
    number: 0x0a00_0001,
};

/// The frame of a server's message, from its hardware address to that of the client, and between the ports of DHCP from
/// its address to everyone (RFC 2131, section 4.1). Only want of memory is an error.
pub fn server_frame(alloc: Global, reply: &Reply) -> Result<Vec<u8>, NoMemory>
    ensures { IfOk result (λ frame. frame.items ≡ server_frame reply.now) }
{
    let ends = Ends4 {
        from_mac: SERVER_MAC,
        to_mac: reply.chaddr,
        from: reply.server,
        to: Ip4::BROADCAST,
    };
    let data = server_data(alloc, reply)?;
    build_udp4(alloc, &ends, SERVER_PORT, CLIENT_PORT, &data)
}
