//! Which addresses the frames of a turn probe.

ghost use Rattle.std.specs.Prelude.{◌≡◌, IfOk};
ghost use Rattle.std.specs.List.{filter_map};
ghost use Rattle.probe_table.specs.Targets.{probe_of, probed_in};

use audit_words::{Offer, Site};
use frame_link::{arp_frame, ip4_at};
use net_types::{Ip4, Mac};
use std::alloc::{AllocError, Global};

/// The length of an IPv4 address, which the frame of an ARP packet ends with.
const IP4_LEN: usize = 4;
/// The sender's address of a probe (RFC 5227, section 2.1.1).
const NO_ADDRESS: Ip4 = Ip4 { number: 0 };

/// The address that a frame of the interface probes.
fn probed_in(mac: Mac, frame: &[u8]) -> Option<Ip4>
    ensures { result ≡ probed_in mac frame.now }
{
    if frame.len() < IP4_LEN {
        return None;
    }
    let target = ip4_at(frame, frame.len() - IP4_LEN);
    if frame == arp_frame(mac, NO_ADDRESS, target).as_slice() {
        Some(target)
    } else {
        None
    }
}

/// The address that an offered frame probes, if it is the interface's and the link took it.
fn probe_of(site: &Site, offer: &Offer) -> Option<Ip4>
    ensures { result ≡ probe_of site.now offer.now }
{
    if offer.taken && offer.iface.number == site.index() {
        probed_in(site.managed.spec.mac, &offer.bytes)
    } else {
        None
    }
}

/// The addresses that are probed by frames of the interface that the link took, in order.
pub fn probed_targets(alloc: Global, site: &Site, offers: &[Offer]) -> Result<Vec<Ip4>, AllocError>
    ensures { IfOk result (λ targets. targets.items ≡ filter_map (probe_of site.now) offers.now) }
{
    offers
        .iter()
        .filter_map(|offer| probe_of(site, offer))
        .collect(alloc)
}
