//! IPv4 packets that carry UDP.

ghost use Rattle.std.specs.Prelude.{◌≡◌, ◌<◌, ◌==◌, length};
ghost use Rattle.std.specs.Option.{option_map};
ghost use Rattle.net_types.specs.Sum.{ones_sum};
ghost use Rattle.udp_frame.specs.Packets as texts;
ghost use Rattle.udp_frame.specs.Datagrams.{pseudo4};

use crate::datagram::UDP;
use byteorder::{BigEndian, ByteOrder};
use frame_link::{ip4_at, word_at};
use net_types::{Ip4, sum_add, sum_is_right, sum_new, sum_value};

/// The bytes of an IPv4 header without options.
///
/// ```text
/// | version, words of header (1) | service (1) | total length (2) | identification (2) | fragment (2) |
/// | hops to live (1) | protocol (1) | checksum (2) | from (4) | to (4) |
/// ```
pub const HEADER_LEN: usize = 20;

/// The version in the first byte's high half.
const VERSION: u8 = 4;

/// The bytes of a word, which the low half of the first byte counts.
const WORD_LEN: usize = 4;

/// The flag of a packet that may not be cut. The bits below it are those of a fragment.
const DONT_FRAGMENT: u16 = 0x4000;

/// A packet with a whole datagram.
#[derive(Clone, Copy)]
pub struct PacketView<'a> {
    pub from: Ip4,
    pub to: Ip4,
    pub body: &'a [u8],
}

/// The packet that a frame's body begins with. None where its version, its lengths or its header's
/// checksum is wrong, where it is a fragment, or where it carries another protocol.
#[tactic(auto, unfolding(crate::specs::Packets::packet_in))]
pub fn packet_of<'a>(body: &'a [u8]) -> Option<PacketView<'a>>
    ensures { option_map texts.packet_shown result ≡ texts.packet_in body.now }
{
    if !is_packet(body) {
        return None;
    }
    let total = usize::from(word_at(body, 2));
    Some(PacketView {
        from: ip4_at(body, 12),
        to: ip4_at(body, 16),
        body: &body[..total][head_len(body)..],
    })
}

fn is_packet(body: &[u8]) -> bool
    ensures { result ≡ texts.is_packet body.now }
{
    body.len() >= HEADER_LEN
        && body[0] / 16 == VERSION
        && head_len(body) >= HEADER_LEN
        && head_len(body) <= usize::from(word_at(body, 2))
        && usize::from(word_at(body, 2)) <= body.len()
        && word_at(body, 6) % DONT_FRAGMENT == 0
        && body[9] == UDP
        && is_right(&body[..head_len(body)])
}

/// The bytes of the header of a body that begins with one.
fn head_len(body: &[u8]) -> usize
    requires { 0 < length body.now }
    ensures { result ≡ texts.head_len body.now }
{
    usize::from(body[0] % 16) * WORD_LEN
}

/// Whether the bytes hold their right checksum.
fn is_right(bytes: &[u8]) -> bool
    ensures { result ≡ (ones_sum bytes.now == 65535) }
{
    let mut sum = sum_new();
    sum_add(&mut sum, bytes);
    sum_is_right(&sum)
}

/// The header of a packet of `total` bytes that carries UDP, with its checksum.
pub fn header(from: Ip4, to: Ip4, total: u16) -> [u8; 20]
    ensures { result ≡ texts.whole_head from to total }
{
    let mut sum = sum_new();
    sum_add(&mut sum, &header_with(from, to, total, 0));
    header_with(from, to, total, sum_value(&sum))
}

fn header_with(from: Ip4, to: Ip4, total: u16, sum: u16) -> [u8; 20]
    ensures { result ≡ texts.head_text from to total sum }
{
    let mut header = [
        0x45, 0x00, 0x00, 0x00, // version and header length, no service asked for, total length
        0x00, 0x00, 0x40, 0x00, // no identification, don't fragment
        64, UDP, 0x00, 0x00, // hops to live, protocol, checksum
        0x00, 0x00, 0x00, 0x00, // source
        0x00, 0x00, 0x00, 0x00, // destination
    ];
    BigEndian::write_u16(&mut header[2..], total);
    BigEndian::write_u16(&mut header[10..], sum);
    BigEndian::write_u32(&mut header[12..], from.number);
    BigEndian::write_u32(&mut header[16..], to.number);
    header
}

/// What stands before a datagram of `len` bytes where it is summed (RFC 768).
pub fn pseudo_header(from: Ip4, to: Ip4, len: u16) -> [u8; 12]
    ensures { result ≡ pseudo4 from to len }
{
    let mut pseudo = [0; 12];
    BigEndian::write_u32(&mut pseudo, from.number);
    BigEndian::write_u32(&mut pseudo[4..], to.number);
    pseudo[9] = UDP;
    BigEndian::write_u16(&mut pseudo[10..], len);
    pseudo
}
