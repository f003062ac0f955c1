//! The ARP packet of a frame, which machines hear.
ghost use Rattle.std.specs.Prelude.{◌≡◌};
ghost use Rattle.client_model.specs.IfaceTurns.{arp_heard};

use frame_link::{ArpView, arp_of, eth_of};

/// The kind of an Ethernet frame that carries ARP (RFC 826).
const ARP_KIND: u16 = 0x0806;

/// The ARP packet that a frame carries.
pub fn arp_in_frame(bytes: &[u8]) -> Option<ArpView>
    ensures { result ≡ arp_heard bytes.now }
{
    match eth_of(bytes) {
        Some(frame) if frame.kind == ARP_KIND => arp_of(frame.body),
        Some(_) => None,
        None => None,
    }
}
