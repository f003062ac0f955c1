//! UDP over IPv4.

ghost use Rattle.std.specs.Prelude.{◌≡◌, ◌≤◌, ◌<◌, ◌+◌, ◌^◌, length, vec_len, IfOk};
ghost use Rattle.std.specs.Option.{option_map};
ghost use Rattle.udp_frame.specs.Datagrams.{is_checked4};
ghost use Rattle.udp_frame.specs.Udp4Frames.{udp4_in, checked4_in, shown4, udp4_frame_text};

use crate::datagram::{UDP_HEADER_LEN, checksum, datagram_of, is_right_after};
use crate::framing::{eth_header, joined};
use crate::{datagram, ipv4};
use frame_link::word_at;
use net_types::{Ip4, Mac, NoMemory};
use std::alloc::Global;

/// The kind of a frame that carries IPv4.
pub const KIND_IPV4: u16 = 0x0800;

/// A heard datagram: between whom, and its data.
#[derive(Clone, Copy)]
pub struct Udp4View<'a> {
    pub from: Ip4,
    pub to: Ip4,
    pub from_port: u16,
    pub to_port: u16,
    pub payload: &'a [u8],
}

/// The ends of a frame that is sent.
#[derive(Clone, Copy, PartialEq, Eq)]
pub struct Ends4 {
    pub from_mac: Mac,
    pub to_mac: Mac,
    pub from: Ip4,
    pub to: Ip4,
}

/// The datagram in a frame's body of kind 0800. None where the packet isn't of version 4, a length passes
/// what holds it or is below its header's, the packet is a fragment or carries another protocol, or a
/// checksum is wrong; a UDP checksum of 0 isn't looked at (RFC 791, RFC 768).
#[tactic(auto, unfolding(crate::specs::Udp4Frames::udp4_in))]
pub fn udp4_of<'a>(body: &'a [u8]) -> Option<Udp4View<'a>>
    ensures { option_map shown4 result ≡ udp4_in body.now }
{
    let packet = ipv4::packet_of(body)?;
    let datagram = datagram_of(packet.body)?;
    checked(packet.from, packet.to, datagram)
}

fn checked<'a>(from: Ip4, to: Ip4, datagram: &'a [u8]) -> Option<Udp4View<'a>>
    requires least { 8 ≤ length datagram.now }
    requires most { length datagram.now < 2 ^ 16 }
    ensures { option_map shown4 result ≡ checked4_in from to datagram.now }
{
    if !is_checked(from, to, datagram) {
        return None;
    }
    Some(Udp4View {
        from,
        to,
        from_port: word_at(datagram, 0),
        to_port: word_at(datagram, 2),
        payload: &datagram[UDP_HEADER_LEN..],
    })
}

/// Whether a datagram has no checksum or the right one.
#[tactic(auto, unfolding(crate::specs::Datagrams::is_checked4))]
fn is_checked(from: Ip4, to: Ip4, datagram: &[u8]) -> bool
    requires least { 8 ≤ length datagram.now }
    requires most { length datagram.now < 2 ^ 16 }
    ensures { result ≡ is_checked4 from to datagram.now }
{
    if word_at(datagram, 6) == 0 {
        return true;
    }
    let pseudo = ipv4::pseudo_header(from, to, datagram.len() as u16);
    is_right_after(&pseudo, datagram)
}

/// The frame that carries `payload` from one end to the other: 42 bytes of headers and the data.
/// The packet is no fragment and may not be cut; both checksums are set.
pub fn build_udp4(
    alloc: Global,
    ends: &Ends4,
    from_port: u16,
    to_port: u16,
    payload: &[u8],
) -> Result<Vec<u8>, NoMemory>
    requires { length payload.now ≤ 1472 }
    ensures exact { IfOk result (λ v. v.items ≡ udp4_frame_text ends.now from_port to_port payload.now) }
    ensures len { IfOk result (λ v. vec_len v ≡ 42 + length payload.now) }
{
    let len = (UDP_HEADER_LEN + payload.len()) as u16;
    let total = ipv4::HEADER_LEN as u16 + len;
    let pseudo = ipv4::pseudo_header(ends.from, ends.to, len);
    let sum = checksum(&pseudo, from_port, to_port, len, payload);
    let eth = eth_header(ends.to_mac, ends.from_mac, KIND_IPV4);
    let head = ipv4::header(ends.from, ends.to, total);
    let ports = datagram::header(from_port, to_port, len, sum);
    match joined(alloc, &eth, &head, &ports, payload) {
        Ok(frame) => Ok(frame),
        Err(_) => Err(NoMemory),
    }
}
