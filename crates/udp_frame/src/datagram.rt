//! UDP datagrams, whatever carries them.

ghost use Rattle.std.specs.Prelude.{◌≡◌, ◌≤◌, ◌<◌, ◌^◌, ◌++◌, ◌==◌, length, IfSome};
ghost use Rattle.std.specs.Option.{option_map};
ghost use Rattle.net_types.specs.Sum.{ones_sum};
ghost use Rattle.udp_frame.specs.Datagrams as texts;

use byteorder::{BigEndian, ByteOrder};
use frame_link::word_at;
use net_types::{sum_add, sum_is_right, sum_new, sum_value};

/// The number of UDP among the protocols of IPv4 and the headers of IPv6 (RFC 768).
pub const UDP: u8 = 17;

/// The bytes of a UDP header.
///
/// ```text
/// | from_port (2) | to_port (2) | length (2) | checksum (2) |
/// ```
pub const UDP_HEADER_LEN: usize = 8;

/// The datagram that a packet's body begins with, as long as its header says, and None where the body is
/// too short for it or the length for a header.
#[tactic(auto, unfolding(crate::specs::Datagrams::datagram_in))]
pub fn datagram_of(body: &[u8]) -> Option<&[u8]>
    ensures exact { option_map (λ d. d.now) result ≡ texts.datagram_in body.now }
    ensures least { IfSome result (λ d. 8 ≤ length d.now) }
    ensures most { IfSome result (λ d. length d.now < 2 ^ 16) }
{
    if body.len() < UDP_HEADER_LEN {
        return None;
    }
    let len = usize::from(word_at(body, 4));
    if len < UDP_HEADER_LEN || len > body.len() {
        return None;
    }
    Some(&body[..len])
}

/// A UDP header.
pub fn header(from_port: u16, to_port: u16, len: u16, sum: u16) -> [u8; 8]
    ensures { result ≡ texts.ports_text from_port to_port len sum }
{
    let mut header = [0; 8];
    BigEndian::write_u16(&mut header, from_port);
    BigEndian::write_u16(&mut header[2..], to_port);
    BigEndian::write_u16(&mut header[4..], len);
    BigEndian::write_u16(&mut header[6..], sum);
    header
}

/// The checksum of a datagram that is sent, where `pseudo` stands before it.
pub fn checksum(pseudo: &[u8], from_port: u16, to_port: u16, len: u16, payload: &[u8]) -> u16
    ensures { result ≡ texts.datagram_sum pseudo.now from_port to_port len payload.now }
{
    let mut sum = sum_new();
    sum_add(&mut sum, pseudo);
    sum_add(&mut sum, &header(from_port, to_port, len, 0));
    sum_add(&mut sum, payload);
    sent(sum_value(&sum))
}

/// A checksum as it is sent: 0 would say that there is none, and all ones stand for it.
fn sent(sum: u16) -> u16
    ensures { result ≡ texts.sent_sum sum }
{
    if sum == 0 { 0xffff } else { sum }
}

/// Whether a datagram's checksum is right, where `pseudo` stands before it.
pub fn is_right_after(pseudo: &[u8], datagram: &[u8]) -> bool
    ensures { result ≡ (ones_sum (pseudo.now ++ datagram.now) == 65535) }
{
    let mut sum = sum_new();
    sum_add(&mut sum, pseudo);
    sum_add(&mut sum, datagram);
    sum_is_right(&sum)
}
