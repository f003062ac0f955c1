//! Which DHCPv6 messages are an interface's own.

ghost use Rattle.std.specs.Prelude.{◌≡◌, [], ◌∷◌, List, map, IfOk};
ghost use Rattle.std.specs.Option.{option_map};
ghost use Rattle.v6_options.specs.IaViews.{ia_shown, ias_left};
ghost use Rattle.v6_message.specs.ReadBack.{asked_in};
ghost use Rattle.v6_items.specs.Asking.{hinted};
ghost use Rattle.v6_items.specs.declared.asks.IaAsk.{IaAsk};
ghost use Rattle.own_frames6.specs.Shown.{said_shown, sent_shown};
ghost use Rattle.audit_words.specs.Shown.{offer_shown, site_shown};
ghost use Rattle.lease6_evidence.specs.Exchanges6.{is_own, message6_of};
ghost use Rattle.lease6_evidence.specs.OwnMessages6 as own;
ghost use Rattle.evidence_words.specs.ClientModel.ClientSettings6.{ask_for};
ghost use Rattle.item_judge.specs.Own.{is_given_back};

use audit_words::{Offer, Site};
use net_types::{Ip6, Net6, NoMemory};
use own_frames6::{SaidView, SentView, sent6_of};
use settings::{IaConf, Managed};
use std::alloc::Global;
use v6_items::{IaAsk, is_same_kind};
use v6_message::Kind6;
use v6_options::{IaKind, IaView, IaViews, ia_views};

/// Option 14 stands in a SOLICIT, where that is configured.
fn is_rapid(kind: Kind6, rapid: bool) -> bool
    ensures { result ≡ own.is_rapid kind rapid }
{
    match kind {
        Kind6::Solicit => rapid,
        Kind6::Request | Kind6::Renew | Kind6::Rebind | Kind6::Release | Kind6::Decline => false,
    }
}

/// A SOLICIT and a REBIND go to each server, a REQUEST to one (RFC 8415, section 16).
fn may_name(kind: Kind6, server: Option<&[u8]>) -> bool
    ensures { result ≡ own.may_name kind (option_map (λ v. v.now) server.entry) }
{
    match kind {
        Kind6::Solicit | Kind6::Rebind => server.is_none(),
        Kind6::Request => server.is_some(),
        Kind6::Renew | Kind6::Release | Kind6::Decline => true,
    }
}

fn is_ia_of(ask: IaAsk, ia: IaView) -> bool
    ensures { result ≡ own.is_ia_of ask (asked_in (ia_shown ia.entry)) }
{
    is_same_kind(ia.kind, ask.kind) && ia.iaid == ask.iaid
}

/// Whether an IA names nothing.
fn is_empty(ia: IaView) -> bool
    ensures { result ≡ own.same_nets [] (asked_in (ia_shown ia.entry)).items }
{
    ia.items().next().is_none()
}

/// Whether an IA names one net alone.
fn names_one(ia: IaView, net: Net6) -> bool
    ensures { result ≡ own.same_nets (net ∷ []) (asked_in (ia_shown ia.entry)).items }
{
    let mut items = ia.items();
    let Some(first) = items.next() else {
        return false;
    };
    net == first.net && items.next().is_none()
}

/// Whether an IA names the prefix that is wished for (RFC 8415, section 18.2.1).
fn has_hint(ask: IaAsk, ia: IaView) -> bool
    ensures { result ≡ own.same_nets (hinted ask.kind ask.hint) (asked_in (ia_shown ia.entry)).items }
{
    match ask.kind {
        IaKind::Na => is_empty(ia),
        IaKind::Pd => {
            if ask.hint == 0 {
                return is_empty(ia);
            }
            let wished = Net6 {
                ip: Ip6 { number: 0 },
                len: ask.hint,
            };
            names_one(ia, wished)
        }
    }
}

fn is_looked_for(ask: IaAsk, ia: IaView) -> bool
    ensures { result ≡ own.is_looked_for ask (asked_in (ia_shown ia.entry)) }
{
    is_ia_of(ask, ia) && has_hint(ask, ia)
}

/// What is asked for by the settings of an IA.
pub(crate) fn ask_for(conf: &IaConf) -> IaAsk
    ensures { result ≡ ask_for conf.now }
{
    IaAsk {
        kind: conf.kind,
        iaid: conf.iaid,
        hint: conf.hint,
    }
}

/// Whether the IAs are all that are looked for, in order.
fn are_looked_for(confs: &[IaConf], ias: IaViews) -> bool
    ensures { result ≡ own.are_all own.is_looked_for (map ask_for confs.now) (map asked_in (ias_left ias.entry)) }
{
    let mut left = ias;
    'confs: for conf in confs {
        let Some(ia) = left.next() else {
            return false;
        };
        if !is_looked_for(ask_for(conf), ia) {
            return false;
        }
    }
    left.next().is_none()
}

/// Whether the IAs are all that are asked for, in order.
fn are_all(confs: &[IaConf], ias: IaViews) -> bool
    ensures { result ≡ own.are_all own.is_ia_of (map ask_for confs.now) (map asked_in (ias_left ias.entry)) }
{
    let mut left = ias;
    'confs: for conf in confs {
        let Some(ia) = left.next() else {
            return false;
        };
        if !is_ia_of(ask_for(conf), ia) {
            return false;
        }
    }
    left.next().is_none()
}

/// Whether an IA is of an ask and names something.
fn is_given_back(ask: IaAsk, ia: IaView) -> bool
    ensures { result ≡ is_given_back ask (asked_in (ia_shown ia.entry)) }
{
    is_ia_of(ask, ia) && !is_empty(ia)
}

/// The IAs that are left after the next one, where that is of an ask and names something.
fn left_after<'a>(ask: IaAsk, ias: IaViews<'a>) -> IaViews<'a>
    ensures { (asks : List IaAsk) → own.are_some (ask ∷ asks) (map asked_in (ias_left ias.entry))
        ≡ own.are_some asks (map asked_in (ias_left result)) }
{
    let mut ahead = ias;
    let Some(ia) = ahead.next() else {
        return ias;
    };
    if is_given_back(ask, ia) {
        return ahead;
    }
    ias
}

/// Whether the IAs are some that are asked for, in order, each with items.
fn are_some(confs: &[IaConf], ias: IaViews) -> bool
    ensures { result ≡ own.are_some (map ask_for confs.now) (map asked_in (ias_left ias.entry)) }
{
    let mut left = ias;
    'confs: for conf in confs {
        left = left_after(ask_for(conf), left);
    }
    left.next().is_none()
}

/// Whether a message has the IAs that are asked for.
fn has_own_ias(confs: &[IaConf], said: &SaidView) -> bool
    ensures { result ≡ own.has_own_ias said.now.kind (map ask_for confs.now) (said_shown said.now).ias }
{
    let ias = ia_views(said.options);
    match said.kind {
        Kind6::Solicit => are_looked_for(confs, ias),
        Kind6::Request | Kind6::Renew | Kind6::Rebind => are_all(confs, ias),
        Kind6::Release | Kind6::Decline => are_some(confs, ias),
    }
}

/// Whether the client of an interface may say a message; its DUID is looked at elsewhere.
#[tactic(auto, unfolding(lease6_evidence::specs::OwnMessages6::is_own_said))]
fn is_own_said(managed: &Managed, said: &SaidView) -> bool
    ensures { result ≡ own.is_own_said managed.now (said_shown said.now) }
{
    let dhcp6 = &managed.conf.dhcp6;
    said.rapid == is_rapid(said.kind, dhcp6.rapid)
        && may_name(said.kind, said.server)
        && has_own_ias(&dhcp6.ias, said)
}

/// Whether a message is of the interface and the host, and as they are configured.
fn is_own(site: &Site, sent: &SentView) -> bool
    ensures { result ≡ is_own (site_shown site.now) (sent_shown sent.now) }
{
    sent.mac == site.managed.spec.mac
        && sent.said.client == site.duid.as_slice()
        && is_own_said(&site.managed, &sent.said)
}

/// The DHCPv6 message that a frame spells, where it is one of the interface's own.
pub fn message6_of<'a>(
    alloc: Global,
    site: &Site,
    offer: &'a Offer,
) -> Result<Option<SentView<'a>>, NoMemory>
    ensures { IfOk result
        (λ sent. option_map sent_shown sent ≡ message6_of (site_shown site.now) (offer_shown offer.now)) }
{
    let Some(sent) = sent6_of(alloc, &offer.bytes)? else {
        return Ok(None);
    };
    if is_own(site, &sent) {
        return Ok(Some(sent));
    }
    Ok(None)
}
