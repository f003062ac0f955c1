//! Which interfaces a turn concerns.
ghost use Rattle.std.specs.Prelude.{◌≡◌, ◌==◌};
ghost use Rattle.std.specs.List.{list_any};
ghost use Rattle.audit_words.specs.EvidenceWords.Inputs.{index_at};
ghost use Rattle.audit_words.specs.Shown.{entry_shown, offer_shown, site_shown};
ghost use Rattle.audit_seats.specs.Concern.{concerns, is_input, is_offered};

use audit_words::{Entry, Offer, Site};
use world::Event;

/// Whether an input is one of the interface of a number, or of all.
fn is_input(index: u32, event: Event) -> bool
    ensures { result ≡ is_input index event }
{
    match event {
        Event::Frame { iface, .. }
        | Event::Carrier { iface, .. }
        | Event::Duplicate { iface, .. }
        | Event::Release { iface }
        | Event::Rebind { iface } => index == iface,
        Event::Stop => true,
        Event::Quiet | Event::End => false,
    }
}

/// Whether one of some frames was offered on the interface of a number.
fn is_offered(index: u32, offers: &[Offer]) -> bool
    ensures { result ≡ list_any (λ offer. offer.iface.number == index) offers.now }
{
    offers.iter().any(|offer| offer.iface.number == index)
}

/// Whether a turn has an input of an interface or a frame that was offered there.
#[tactic(auto, using(crate::proofs::SeatLaws::offered_so))]
pub fn concerns(site: &Site, entry: &Entry) -> bool
    ensures { result ≡ concerns (index_at (site_shown site.now)) (entry_shown entry.now) }
{
    let index = site.index();
    is_input(index, entry.event) || is_offered(index, &entry.offers)
}
