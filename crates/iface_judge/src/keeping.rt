//! The leases of an earlier life, judged by what the other judges of the interface have seen. Where none was kept, or
//! it can't be held any more, a turn isn't looked at.

ghost use Rattle.std.specs.Prelude.{◌≡◌, ◌∷◌, List, IfOk};
ghost use Rattle.evidence_words.specs.Entries as told;
ghost use Rattle.audit_words.specs.Shown.{FitsSite, entry_shown, site_shown};
ghost use Rattle.lease_judge.specs.Turns as lease_turns;
ghost use Rattle.item_judge.specs.Judging as item_turns;
ghost use Rattle.share_judge.specs.KeptJudge.Asking4.{Tells4};
ghost use Rattle.share_judge.specs.KeptJudge.Asking6.{Tells6, is_kept_address6};
ghost use Rattle.share_judge.specs.KeptShares.{is_kept_share};
ghost use Rattle.iface_judge.specs.Telling.{TellsKept6};

use crate::speaking::spoken_all;
use audit_words::{Entry, Site};
use item_judge::ItemJudge;
use lease_judge::LeaseJudge;
use net_types::{IfIndex, Net, NoMemory};
use share_judge::{Kept4, Kept6, kept_shares};
use std::alloc::Global;

/// The kept lease of DHCPv4 after a turn more, which the judge of leases has seen (RFC 2131, section 3.2).
#[tactic(auto, using(crate::proofs::KeptTurns::none_turned4, crate::proofs::KeptTurns::answer_same))]
pub(crate) fn kept4_turned(
    alloc: Global,
    kept: Kept4,
    lease: &LeaseJudge,
    site: &Site,
    entry: &Entry,
) -> Result<Kept4, NoMemory>
    ensures { IfOk result
        (λ next. (past : List told.Entry)
        → lease_turns.Tells lease.now (site_shown site.now) (entry_shown entry.now ∷ past)
        → Tells4 kept (site_shown site.now) past
        → Tells4 next (site_shown site.now) (entry_shown entry.now ∷ past)) }
{
    if site.kept4.is_none() {
        return Ok(kept);
    }
    if kept.is_over() {
        return Ok(kept.rests(site, entry));
    }
    let messages = lease.messages(alloc, site, entry)?;
    let said = lease.answer(site, entry);
    Ok(kept.turned(site, entry, &messages, said))
}

/// The kept lease of DHCPv6 after a turn more, which the judge of items has seen (RFC 8415, section 18.2.12).
#[tactic(auto, using(crate::proofs::KeptTurns::reply_same))]
fn one_turned6(
    alloc: Global,
    kept: Kept6,
    items: &ItemJudge,
    site: &Site,
    entry: &Entry,
) -> Result<Kept6, NoMemory>
    ensures { IfOk result
        (λ next. (past : List told.Entry)
        → item_turns.Tells items.now (site_shown site.now) (entry_shown entry.now ∷ past)
        → Tells6 kept (site_shown site.now) past
        → Tells6 next (site_shown site.now) (entry_shown entry.now ∷ past)) }
{
    if kept.is_over() {
        return Ok(kept.rests(site, entry));
    }
    let spoken = spoken_all(alloc, site, &entry.offers)?;
    let replied = items.has_reply(alloc, site, entry)?;
    Ok(kept.turned(site, entry, &spoken, replied))
}

/// So where one was kept.
#[tactic(auto, using(crate::proofs::KeptTurns::none_told6, crate::proofs::KeptTurns::one_told6, crate::proofs::KeptTurns::any_told6))]
pub(crate) fn kept6_turned(
    alloc: Global,
    kept: Kept6,
    items: &ItemJudge,
    site: &Site,
    entry: &Entry,
) -> Result<Kept6, NoMemory>
    ensures { IfOk result
        (λ next. (past : List told.Entry)
        → item_turns.Tells items.now (site_shown site.now) (entry_shown entry.now ∷ past)
        → TellsKept6 kept (site_shown site.now) past
        → TellsKept6 next (site_shown site.now) (entry_shown entry.now ∷ past)) }
{
    if site.kept6.is_none() {
        return Ok(kept);
    }
    one_turned6(alloc, kept, items, site, entry)
}

/// Whether the kept lease of DHCPv6 has an address, at a moment in milliseconds since 1970.
#[tactic(auto, using(crate::proofs::KeptTurns::gives_so))]
pub(crate) fn kept_gives(kept: &Kept6, site: &Site, net: Net, moment: u64) -> bool
    ensures { (past : List told.Entry)
        → TellsKept6 kept.now (site_shown site.now) past
        → result ≡ is_kept_address6 (site_shown site.now) net moment past }
{
    site.kept6.is_some() && kept.gives(site, net, moment)
}

/// Whether one of its prefixes gives the address to the interface of this index.
#[tactic(auto, using(crate::proofs::KeptTurns::shares_so))]
pub(crate) fn kept_shares_out(
    kept: &Kept6,
    upstream: &Site,
    index: IfIndex,
    net: Net,
    moment: u64,
) -> bool
    requires { FitsSite upstream.now }
    ensures { (past : List told.Entry)
        → TellsKept6 kept.now (site_shown upstream.now) past
        → result ≡ is_kept_share (site_shown upstream.now) index net moment past }
{
    upstream.kept6.is_some() && kept_shares(kept, upstream, index, net, moment)
}
