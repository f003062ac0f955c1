//! ARP packets for IPv4 over Ethernet: requests and replies are read from a frame's body, and requests to all hosts
//! are spelled as whole frames.

ghost use Rattle.std.specs.Prelude.{◌≡◌};
ghost use Rattle.frame_link.specs.Packets as texts;

use crate::fields::{ip4_at, mac_at, word_at};
use net_types::{Ip4, Mac};

/// The bytes of an ARP packet.
const ARP_LEN: usize = 28;
/// The hardware type of Ethernet.
const HARDWARE_ETHERNET: u16 = 1;
/// The protocol type of IPv4, which is the kind of a frame that carries it.
const PROTOCOL_IPV4: u16 = 0x0800;

const MAC_LEN: u8 = 6;

const IP4_LEN: u8 = 4;

const REQUEST: u16 = 1;

const REPLY: u16 = 2;

/// A heard ARP packet (RFC 826), without the target's hardware address.
///
/// ```text
/// | hardware (2) | protocol (2) | 6 | 4 | op (2) | sender_mac (6) | sender (4) | target's (6) | target (4) |
/// ```
#[derive(Clone, Copy, Debug, PartialEq, Eq)]
pub struct ArpView {
    /// 1 for a request, 2 for a reply.
    pub op: u16,
    pub sender_mac: Mac,
    pub sender: Ip4,
    pub target: Ip4,
}

/// The packet that a body of kind 0806 begins with, and None where it is too short or of other types,
/// lengths or operation (RFC 826).
#[tactic(auto, unfolding(crate::specs::Packets::arp_in))]
pub fn arp_of(body: &[u8]) -> Option<ArpView>
    ensures { result ≡ texts.arp_in body.now }
{
    if !is_arp(body) {
        return None;
    }
    Some(ArpView {
        op: word_at(body, 6),
        sender_mac: mac_at(body, 8),
        sender: ip4_at(body, 14),
        target: ip4_at(body, 24),
    })
}

fn is_arp(body: &[u8]) -> bool
    ensures { result ≡ texts.is_arp body.now }
{
    body.len() >= ARP_LEN
        && word_at(body, 0) == HARDWARE_ETHERNET
        && word_at(body, 2) == PROTOCOL_IPV4
        && body[4] == MAC_LEN
        && body[5] == IP4_LEN
        && matches!(word_at(body, 6), REQUEST | REPLY)
}

/// The frame to all hosts that asks who has `target`. A probe has a sender of 0, and an announcement the
/// address as both (RFC 5227, sections 2.1.1 and 2.3).
pub fn arp_frame(mac: Mac, sender: Ip4, target: Ip4) -> [u8; 42]
    ensures { result ≡ texts.request_text mac sender target }
{
    let from = mac.bytes;
    let ip = sender.octets();
    let wanted = target.octets();
    [
        0xff, 0xff, 0xff, 0xff, 0xff, 0xff, // to all hosts
        from[0], from[1], from[2], from[3], from[4], from[5], // source
        0x08, 0x06, // kind: ARP
        0x00, 0x01, 0x08, 0x00, 0x06, 0x04, // Ethernet and IPv4, with the lengths of their addresses
        0x00, 0x01, // request
        from[0], from[1], from[2], from[3], from[4], from[5], // the sender's hardware address
        ip[0], ip[1], ip[2], ip[3], // and its own
        0x00, 0x00, 0x00, 0x00, 0x00, 0x00, // the target's, which is asked for
        wanted[0], wanted[1], wanted[2], wanted[3], // and its own
    ]
}
