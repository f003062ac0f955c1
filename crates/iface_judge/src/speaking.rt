//! What an interface says in a turn by DHCPv6: of each of its messages the kind and the transaction id (RFC 8415,
//! section 8).

ghost use Rattle.std.specs.Prelude.{◌≡◌, ◌∷◌, ◌++◌, [], IfOk, OnOk, option_map};
ghost use Rattle.audit_words.specs.Shown.{offer_shown, site_shown};
ghost use Rattle.item_judge.specs.Lease6Evidence.Exchanges6.{message6_of};
ghost use Rattle.share_judge.specs.KeptJudge.Asking6.{spoken_of};
ghost use Rattle.iface_judge.specs.Telling.{spoken_by};

use audit_words::{Offer, Site};
use item_judge::message6_of;
use net_types::NoMemory;
use share_judge::Spoken6;
use std::alloc::Global;

/// What a frame says, where it is a message of the interface's own.
fn spoken_in(alloc: Global, site: &Site, offer: &Offer) -> Result<Option<Spoken6>, NoMemory>
    ensures { IfOk result
        (λ spoken. spoken ≡ option_map spoken_of (message6_of (site_shown site.now) (offer_shown offer.now))) }
{
    match message6_of(alloc, site, offer)? {
        None => Ok(None),
        Some(sent) => Ok(Some(Spoken6 {
            kind: sent.said.kind,
            xid: sent.said.xid,
        })),
    }
}

/// Appends what a frame says, if it was offered on the interface.
fn push_spoken(
    alloc: Global,
    all: &mut Vec<Option<Spoken6>>,
    site: &Site,
    offer: &Offer,
) -> Result<(), NoMemory>
    ensures { OnOk result (all.new.items ≡ all.old.items ++ spoken_by (site_shown site.now) (offer.now ∷ [])) }
{
    if offer.iface.number != site.index() {
        return Ok(());
    }
    let spoken = spoken_in(alloc, site, offer)?;
    all.push(spoken)?;
    Ok(())
}

/// What the frames say that were offered on the interface, in order.
pub(crate) fn spoken_all(
    alloc: Global,
    site: &Site,
    offers: &[Offer],
) -> Result<Vec<Option<Spoken6>>, NoMemory>
    ensures { IfOk result (λ all. all.items ≡ spoken_by (site_shown site.now) offers.now) }
{
    let mut all = Vec::new(alloc);
    for offer in offers {
        push_spoken(alloc, &mut all, site, offer)?;
    }
    Ok(all)
}
