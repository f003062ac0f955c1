//! Which addresses the frames of a turn announce.

ghost use Rattle.std.specs.Prelude.{◌≡◌, IfOk};
ghost use Rattle.std.specs.List.{filter_map, list_all};
ghost use Rattle.audit_words.specs.Shown.{entry_shown, site_shown};
ghost use Rattle.probe_table.specs.ByAddress.{is_addr};
ghost use Rattle.local_judge.specs.Choices.{is_alone};
ghost use Rattle.local_judge.specs.Judge.{announced_in, announcement_of};

use audit_words::{Entry, Offer, Site};
use frame_link::{arp_frame, ip4_at};
use net_types::{Ip4, Mac};
use std::alloc::{AllocError, Global};

/// The length of an IPv4 address, which the frame of an ARP packet ends with.
const IP4_LEN: usize = 4;

/// The address that a frame of the interface announces (RFC 5227, section 2.3).
fn announced_in(mac: Mac, frame: &[u8]) -> Option<Ip4>
    ensures { result ≡ announced_in mac frame.now }
{
    if frame.len() < IP4_LEN {
        return None;
    }
    let target = ip4_at(frame, frame.len() - IP4_LEN);
    if frame == arp_frame(mac, target, target).as_slice() {
        Some(target)
    } else {
        None
    }
}

/// The address that an offered frame announces, if it is the interface's.
fn announcement_of(site: &Site, offer: &Offer) -> Option<Ip4>
    ensures { result ≡ announcement_of site.now offer.now }
{
    if offer.iface.number == site.index() {
        announced_in(site.managed.spec.mac, &offer.bytes)
    } else {
        None
    }
}

/// Whether each of some addresses is this one.
pub fn are_all(addrs: &[Ip4], addr: Ip4) -> bool
    ensures { result ≡ list_all (is_addr addr) addrs.now }
{
    addrs.iter().all(|other| *other == addr)
}

/// Whether no other address is announced in a turn.
pub fn is_alone(alloc: Global, site: &Site, entry: &Entry, addr: Ip4) -> Result<bool, AllocError>
    ensures { IfOk result (λ alone. alone ≡ is_alone (site_shown site.now) addr (entry_shown entry.now)) }
{
    let announced = announced_addresses(alloc, site, &entry.offers)?;
    Ok(are_all(&announced, addr))
}

/// The addresses that are announced by frames of the interface, in order.
pub fn announced_addresses(
    alloc: Global,
    site: &Site,
    offers: &[Offer],
) -> Result<Vec<Ip4>, AllocError>
    ensures { IfOk result (λ addrs. addrs.items ≡ filter_map (announcement_of site.now) offers.now) }
{
    offers
        .iter()
        .filter_map(|offer| announcement_of(site, offer))
        .collect(alloc)
}
