//! UDP over IPv6.

ghost use Rattle.std.specs.Prelude.{◌≡◌, ◌≤◌, ◌<◌, ◌+◌, ◌^◌, length, vec_len, IfOk};
ghost use Rattle.std.specs.Option.{option_map};
ghost use Rattle.udp_frame.specs.Udp6Frames.{udp6_in, is_checked6, checked6_in, shown6, udp6_frame_text};

use crate::datagram::{UDP_HEADER_LEN, checksum, datagram_of, is_right_after};
use crate::framing::{eth_header, joined};
use crate::{datagram, ipv6};
use frame_link::word_at;
use net_types::{Ip6, Mac, NoMemory};
use std::alloc::Global;

/// The kind of a frame that carries IPv6 (RFC 2464, section 3).
pub const KIND_IPV6: u16 = 0x86dd;

/// A heard datagram: between whom, and its data.
#[derive(Clone, Copy)]
pub struct Udp6View<'a> {
    pub from: Ip6,
    pub to: Ip6,
    pub from_port: u16,
    pub to_port: u16,
    pub payload: &'a [u8],
}

/// The ends of a frame that is sent.
#[derive(Clone, Copy, PartialEq, Eq)]
pub struct Ends6 {
    pub from_mac: Mac,
    pub to_mac: Mac,
    pub from: Ip6,
    pub to: Ip6,
}

/// The datagram in a frame's body of kind 86dd. None where the packet isn't of version 6, a length passes
/// what holds it or is below its header's, another header than UDP's follows, or the checksum is 0 or
/// wrong (RFC 8200, sections 3 and 8.1; RFC 768).
#[tactic(auto, unfolding(crate::specs::Udp6Frames::udp6_in))]
pub fn udp6_of<'a>(body: &'a [u8]) -> Option<Udp6View<'a>>
    ensures { option_map shown6 result ≡ udp6_in body.now }
{
    let packet = ipv6::packet_of(body)?;
    let datagram = datagram_of(packet.body)?;
    checked(packet.from, packet.to, datagram)
}

fn checked<'a>(from: Ip6, to: Ip6, datagram: &'a [u8]) -> Option<Udp6View<'a>>
    requires least { 8 ≤ length datagram.now }
    requires most { length datagram.now < 2 ^ 16 }
    ensures { option_map shown6 result ≡ checked6_in from to datagram.now }
{
    if !is_checked(from, to, datagram) {
        return None;
    }
    Some(Udp6View {
        from,
        to,
        from_port: word_at(datagram, 0),
        to_port: word_at(datagram, 2),
        payload: &datagram[UDP_HEADER_LEN..],
    })
}

/// Whether a datagram has a checksum, and the right one.
#[tactic(auto, unfolding(crate::specs::Udp6Frames::is_checked6))]
fn is_checked(from: Ip6, to: Ip6, datagram: &[u8]) -> bool
    requires least { 8 ≤ length datagram.now }
    requires most { length datagram.now < 2 ^ 16 }
    ensures { result ≡ is_checked6 from to datagram.now }
{
    if word_at(datagram, 6) == 0 {
        return false;
    }
    let pseudo = ipv6::pseudo_header(from, to, datagram.len() as u16);
    is_right_after(&pseudo, datagram)
}

/// The frame that carries `payload` from one end to the other: 62 bytes of headers and the data.
/// The packet has no traffic class and no flow, and its checksum is set.
pub fn build_udp6(
    alloc: Global,
    ends: &Ends6,
    from_port: u16,
    to_port: u16,
    payload: &[u8],
) -> Result<Vec<u8>, NoMemory>
    requires { length payload.now ≤ 1472 }
    ensures exact { IfOk result (λ v. v.items ≡ udp6_frame_text ends.now from_port to_port payload.now) }
    ensures len { IfOk result (λ v. vec_len v ≡ 62 + length payload.now) }
{
    let len = (UDP_HEADER_LEN + payload.len()) as u16;
    let pseudo = ipv6::pseudo_header(ends.from, ends.to, len);
    let sum = checksum(&pseudo, from_port, to_port, len, payload);
    let eth = eth_header(ends.to_mac, ends.from_mac, KIND_IPV6);
    let head = ipv6::header(ends.from, ends.to, len);
    let ports = datagram::header(from_port, to_port, len, sum);
    match joined(alloc, &eth, &head, &ports, payload) {
        Ok(frame) => Ok(frame),
        Err(_) => Err(NoMemory),
    }
}
