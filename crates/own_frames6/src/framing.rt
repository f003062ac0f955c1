//! The frame of a client's message, whatever its length: headers of Ethernet, IPv6 and UDP, and the message.

ghost use Rattle.std.specs.Prelude.{◌≡◌, ℕ, ◌++◌, ◌∷◌, [], bytes_eq, IfOk, OnOk};
ghost use Rattle.net_types.specs.Fields.{ip6_octets};
ghost use Rattle.net_types.specs.Sum.{checksum};
ghost use Rattle.frame_link.specs.Fields.{word_text};
ghost use Rattle.udp_frame.specs.Datagrams.{ports_text, sent_sum};
ghost use Rattle.udp_frame.specs.Packets6.{head6_text};
ghost use Rattle.udp_frame.specs.Udp6Frames.{ip6_kind, pseudo6, udp6_frame_text};
ghost use Rattle.udp_frame.specs.declared.dhcp6.TheConstants.{CLIENT_PORT, SERVER_PORT};
ghost use Rattle.v6_frames.specs.Spelled.{client_ends};

use net_types::{Mac, NoMemory, sum_add, sum_new, sum_value, u16_octets};
use std::alloc::{AllocError, Global};
use udp_frame::dhcp6::{CLIENT_PORT, SERVER_PORT};
use udp_frame::{Ends6, KIND_IPV6};
use v6_frames::client_ends;

/// The first four bytes of a packet of version 6, of no traffic class and no flow (RFC 8200, section 3).
const NO_FLOW: [u8; 4] = [0x60, 0, 0, 0];
/// The number of UDP among the headers of IPv6 (RFC 768).
const UDP: u8 = 17;
/// The hop limit of a packet that is sent.
const HOP_LIMIT: u8 = 64;
/// The bytes of a UDP header (RFC 768).
const UDP_HEADER_LEN: usize = 8;
/// How many lengths two bytes tell apart.
const LENGTHS: usize = 0x1_0000;

/// A length, as its two bytes have it.
pub(crate) fn len_octets(len: usize) -> [u8; 2]
    ensures { result ≡ word_text len }
{
    u16_octets((len % LENGTHS) as u16)
}

/// The checksum of a datagram of `len` bytes from the client's port to the servers' (RFC 8200, section 8.1).
fn sum_of(ends: &Ends6, len: [u8; 2], payload: &[u8]) -> u16
    ensures { (size : ℕ) → len ≡ word_text size
        → result ≡ checksum (pseudo6 ends.now.from ends.now.to size ++ ports_text CLIENT_PORT SERVER_PORT size 0
        ++ payload.now) }
{
    let mut sum = sum_new();
    sum_add(&mut sum, &ends.from.octets());
    sum_add(&mut sum, &ends.to.octets());
    sum_add(&mut sum, &[0, 0]);
    sum_add(&mut sum, &len);
    sum_add(&mut sum, &[0, 0, 0, UDP]);
    sum_add(&mut sum, &u16_octets(CLIENT_PORT));
    sum_add(&mut sum, &u16_octets(SERVER_PORT));
    sum_add(&mut sum, &len);
    sum_add(&mut sum, &[0, 0]);
    sum_add(&mut sum, payload);
    sum_value(&sum)
}

/// A checksum as it is sent: 0 would say that there is none, and all ones stand for it.
fn sent_sum(sum: u16) -> u16
    ensures { result ≡ sent_sum sum }
{
    if sum == 0 { 0xffff } else { sum }
}

fn put_ethernet(frame: &mut Vec<u8>, ends: &Ends6) -> Result<(), AllocError>
    ensures { OnOk result
        (frame.new.items
        ≡ frame.old.items ++ (ends.now.to_mac.bytes ++ ends.now.from_mac.bytes ++ word_text ip6_kind)) }
{
    frame.extend_from_slice(&ends.to_mac.bytes)?;
    frame.extend_from_slice(&ends.from_mac.bytes)?;
    frame.extend_from_slice(&u16_octets(KIND_IPV6))
}

/// A packet's header up to its addresses: version, class and flow, length, next header and hop limit.
fn put_start(frame: &mut Vec<u8>, len: usize) -> Result<(), AllocError>
    ensures { OnOk result
        (frame.new.items ≡ frame.old.items ++ (0x60 ∷ 0 ∷ 0 ∷ 0 ∷ []) ++ word_text len ++ (17 ∷ 64 ∷ [])) }
{
    frame.extend_from_slice(&NO_FLOW)?;
    frame.extend_from_slice(&len_octets(len))?;
    frame.extend_from_slice(&[UDP, HOP_LIMIT])
}

fn put_addresses(frame: &mut Vec<u8>, ends: &Ends6) -> Result<(), AllocError>
    ensures { OnOk result
        (frame.new.items ≡ frame.old.items ++ ip6_octets ends.now.from ++ ip6_octets ends.now.to) }
{
    frame.extend_from_slice(&ends.from.octets())?;
    frame.extend_from_slice(&ends.to.octets())
}

/// The header of a packet with a body of so many bytes.
fn put_packet(frame: &mut Vec<u8>, ends: &Ends6, len: usize) -> Result<(), AllocError>
    ensures { OnOk result (frame.new.items ≡ frame.old.items ++ head6_text ends.now.from ends.now.to len) }
{
    put_start(frame, len)?;
    put_addresses(frame, ends)
}

/// The header of a datagram of so many bytes.
fn put_ports(frame: &mut Vec<u8>, len: usize, sum: u16) -> Result<(), AllocError>
    ensures { OnOk result (frame.new.items ≡ frame.old.items ++ ports_text CLIENT_PORT SERVER_PORT len sum) }
{
    frame.extend_from_slice(&u16_octets(CLIENT_PORT))?;
    frame.extend_from_slice(&u16_octets(SERVER_PORT))?;
    frame.extend_from_slice(&len_octets(len))?;
    frame.extend_from_slice(&u16_octets(sum))
}

fn framed(alloc: Global, ends: &Ends6, payload: &[u8]) -> Result<Vec<u8>, AllocError>
    ensures { IfOk result (λ frame. frame.items ≡ udp6_frame_text ends.now CLIENT_PORT SERVER_PORT payload.now) }
{
    let len = UDP_HEADER_LEN + payload.len();
    let sum = sent_sum(sum_of(ends, len_octets(len), payload));
    let mut frame = Vec::new(alloc);
    put_ethernet(&mut frame, ends)?;
    put_packet(&mut frame, ends, len)?;
    put_ports(&mut frame, len, sum)?;
    frame.extend_from_slice(payload)?;
    Ok(frame)
}

/// Whether a frame is that of a message which the interface with this hardware address says.
pub(crate) fn is_framed(
    alloc: Global,
    frame: &[u8],
    mac: Mac,
    payload: &[u8],
) -> Result<bool, NoMemory>
    ensures { IfOk result
        (λ same. same ≡ bytes_eq frame.now (udp6_frame_text (client_ends mac) CLIENT_PORT SERVER_PORT payload.now)) }
{
    match framed(alloc, &client_ends(mac), payload) {
        Ok(text) => Ok(frame == text.as_slice()),
        Err(_) => Err(NoMemory),
    }
}
