//! What the input of a turn means to an address of an interface.

ghost use Rattle.std.specs.Prelude.{◌≡◌};
ghost use Rattle.audit_words.specs.EvidenceWords.Inputs.{arp_on, carrier_after, index_at, tells_contest, tells_use};
ghost use Rattle.audit_words.specs.Shown.{site_shown};

use arp_acd::{is_contested, is_used};
use audit_words::{Entry, Site};
use frame_link::ArpView;
use iface_machines::arp_in_frame;
use net_types::{Ip4, Mac};
use world::Event;

/// The ARP packet that came in on the interface (RFC 826).
pub fn arp_on(site: &Site, entry: &Entry) -> Option<ArpView>
    ensures { result ≡ arp_on (index_at (site_shown site.now)) entry.now.event entry.now.bytes.items }
{
    match entry.event {
        Event::Frame { iface, .. } if iface == site.index() => arp_in_frame(&entry.bytes),
        Event::Frame { .. }
        | Event::Carrier { .. }
        | Event::Duplicate { .. }
        | Event::Release { .. }
        | Event::Rebind { .. }
        | Event::Stop
        | Event::Quiet
        | Event::End => None,
    }
}

/// Whether the packet is one of another host that uses the address or probes it too (RFC 5227, section 2.1.1).
pub fn is_contest(own: &[Mac], addr: Ip4, arp: Option<ArpView>) -> bool
    ensures { result ≡ tells_contest own.now addr arp }
{
    match arp {
        Some(arp) => is_contested(addr, &arp, own),
        None => false,
    }
}

/// Whether the packet is one of another host that uses the address (RFC 5227, section 2.4).
pub fn is_use(own: &[Mac], addr: Ip4, arp: Option<ArpView>) -> bool
    ensures { result ≡ tells_use own.now addr arp }
{
    match arp {
        Some(arp) => is_used(addr, &arp, own),
        None => false,
    }
}

/// Whether an interface has carrier after a turn.
pub fn carrier_after(index: u32, event: Event, before: bool) -> bool
    ensures { result ≡ carrier_after index event before }
{
    match event {
        Event::Carrier { iface, up } if iface == index => up,
        Event::Frame { .. }
        | Event::Carrier { .. }
        | Event::Duplicate { .. }
        | Event::Release { .. }
        | Event::Rebind { .. }
        | Event::Stop
        | Event::Quiet
        | Event::End => before,
    }
}
