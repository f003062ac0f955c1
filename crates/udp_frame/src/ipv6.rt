//! IPv6 packets that carry UDP, and an interface's own address.

ghost use Rattle.std.specs.Prelude.{◌≡◌};
ghost use Rattle.std.specs.Option.{option_map};
ghost use Rattle.udp_frame.specs.Packets6 as texts;
ghost use Rattle.udp_frame.specs.Udp6Frames.{pseudo6};
ghost use Rattle.udp_frame.specs.LinkLocal6.{link_local};

use crate::datagram::UDP;
use byteorder::{BigEndian, ByteOrder};
use frame_link::word_at;
use net_types::{Ip6, Mac, ip6_field};

/// The bytes of an IPv6 header.
///
/// ```text
/// | version, class, flow (4) | payload length (2) | next header (1) | hop limit (1) | from (16) | to (16) |
/// ```
pub const HEADER_LEN: usize = 40;

/// The version in the first byte's high half.
const VERSION: u8 = 6;

/// The hop limit of a packet that is sent.
const HOP_LIMIT: u8 = 64;

/// The bit of a hardware address that an interface's identifier turns over (RFC 4291, appendix A).
const UNIVERSAL: u8 = 0x02;

/// A packet with a whole datagram.
#[derive(Clone, Copy)]
pub struct Packet6View<'a> {
    pub from: Ip6,
    pub to: Ip6,
    pub body: &'a [u8],
}

/// The packet that a frame's body begins with. None where its version or its lengths are wrong, or where
/// another header follows.
#[tactic(auto, unfolding(crate::specs::Packets6::packet6_in))]
pub fn packet_of<'a>(body: &'a [u8]) -> Option<Packet6View<'a>>
    ensures { option_map texts.packet6_shown result ≡ texts.packet6_in body.now }
{
    if !is_packet(body) {
        return None;
    }
    let len = usize::from(word_at(body, 4));
    Some(Packet6View {
        from: ip6_field(body, 8),
        to: ip6_field(body, 24),
        body: &body[HEADER_LEN..][..len],
    })
}

fn is_packet(body: &[u8]) -> bool
    ensures { result ≡ texts.is_packet6 body.now }
{
    body.len() >= HEADER_LEN
        && body[0] / 16 == VERSION
        && HEADER_LEN + usize::from(word_at(body, 4)) <= body.len()
        && body[6] == UDP
}

/// The header of a packet with `len` bytes of UDP, of no traffic class and no flow.
pub fn header(from: Ip6, to: Ip6, len: u16) -> [u8; 40]
    ensures { result ≡ texts.head6_text from to len }
{
    let mut header = [0; 40];
    header[0] = 16 * VERSION;
    BigEndian::write_u16(&mut header[4..], len);
    header[6] = UDP;
    header[7] = HOP_LIMIT;
    BigEndian::write_u128(&mut header[8..], from.number);
    BigEndian::write_u128(&mut header[24..], to.number);
    header
}

/// What stands before a datagram of `len` bytes where it is summed (RFC 8200, section 8.1).
pub fn pseudo_header(from: Ip6, to: Ip6, len: u16) -> [u8; 40]
    ensures { result ≡ pseudo6 from to len }
{
    let mut pseudo = [0; 40];
    BigEndian::write_u128(&mut pseudo, from.number);
    BigEndian::write_u128(&mut pseudo[16..], to.number);
    BigEndian::write_u32(&mut pseudo[32..], u32::from(len));
    pseudo[39] = UDP;
    pseudo
}

/// The link-local address of the interface with this hardware address: fe80::/64 with the address's
/// identifier (RFC 4291, section 2.5.6 and appendix A).
pub fn link_local_of(mac: Mac) -> Ip6
    ensures { result ≡ link_local mac }
{
    let mac = mac.bytes;
    let first = mac[0] ^ UNIVERSAL;
    Ip6::from_octets([
        0xfe, 0x80, 0x00, 0x00, 0x00, 0x00, 0x00, 0x00, // the link-local prefix
        first, mac[1], mac[2], 0xff, 0xfe, mac[3], mac[4], mac[5], // the identifier
    ])
}
