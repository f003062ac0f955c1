//! Whether an ARP packet shows that another host uses an IPv4 address or probes for it.

ghost use Rattle.std.specs.Prelude.{◌≡◌};
ghost use Rattle.arp_acd.specs.Conflict.{is_contested, is_own, is_used};

use frame_link::ArpView;
use net_types::{Ip4, Mac};

/// The operation of an ARP request (RFC 826).
const REQUEST: u16 = 1;

/// Whether one of the client's own interfaces sent the packet.
fn is_own(arp: &ArpView, own: &[Mac]) -> bool
    ensures { result ≡ is_own own.now arp.now }
{
    own.contains(&arp.sender_mac)
}

/// Whether another host uses the address (RFC 5227, section 2.4).
pub fn is_used(addr: Ip4, arp: &ArpView, own: &[Mac]) -> bool
    ensures { result ≡ is_used own.now addr arp.now }
{
    arp.sender == addr && !is_own(arp, own)
}

/// Whether another host uses the address or probes it too (RFC 5227, section 2.1.1).
pub fn is_contested(addr: Ip4, arp: &ArpView, own: &[Mac]) -> bool
    ensures { result ≡ is_contested own.now addr arp.now }
{
    let probes = arp.op == REQUEST && arp.sender.number == 0 && arp.target == addr;
    (arp.sender == addr || probes) && !is_own(arp, own)
}
