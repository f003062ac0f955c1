//! Whether an address is one out of a prefix of a kept lease (RFC 8415, section 18.2.12).

ghost use Rattle.std.specs.Prelude.{◌≡◌, List, option_map};
ghost use Rattle.std.specs.List.{list_any};
ghost use Rattle.audit_words.specs.EvidenceWords.Entries as told;
ghost use Rattle.lease6_text.specs.Leases.{ia_content, ias_content, lease6_content};
ghost use Rattle.settings.specs.Fitting.{FitsManaged};
ghost use Rattle.audit_words.specs.Shown.{FitsSite, site_shown};
ghost use Rattle.kept_judge.specs.Asking6.{Tells6};
ghost use Rattle.share_judge.specs.KeptShares.{ia_shares, is_asked, is_asked_by, is_kept_share, item_shares, lease_shares};

use crate::prefix::HeldPrefix;
use crate::sharing::shares_out;
use audit_words::Site;
use kept_judge::Kept6;
use lease6_text::{IaLease, Item6, Lease6};
use machine::has_come;
use net_types::{IfIndex, Net};
use settings::{IaConf, Managed};
use v6_options::IaKind;

fn asks_for(ia: &IaConf, iaid: u32) -> bool
    ensures { result ≡ is_asked_by iaid ia.now }
{
    match ia.kind {
        IaKind::Na => false,
        IaKind::Pd => ia.iaid == iaid,
    }
}

/// Whether the interface asks for the prefixes of this IAID.
fn is_asked(ias: &[IaConf], iaid: u32) -> bool
    ensures { result ≡ is_asked ias.now iaid }
{
    ias.iter().any(|ia| asks_for(ia, iaid))
}

/// Whether a prefix gives the address, and its valid lifetime isn't over.
fn item_shares(
    upstream: &Managed,
    index: IfIndex,
    net: Net,
    now: u64,
    iaid: u32,
    item: &Item6,
) -> bool
    requires { FitsManaged upstream.now }
    ensures { result ≡ item_shares upstream.now index net now iaid item.now }
{
    let prefix = HeldPrefix {
        iaid,
        net: item.net,
    };
    !has_come(item.valid, now) && shares_out(upstream, index, net, &prefix)
}

fn items_share(
    upstream: &Managed,
    index: IfIndex,
    net: Net,
    now: u64,
    iaid: u32,
    items: &[Item6],
) -> bool
    requires { FitsManaged upstream.now }
    ensures { result ≡ list_any (item_shares upstream.now index net now iaid) items.now }
{
    for item in items {
        if item_shares(upstream, index, net, now, iaid, item) {
            return true;
        }
    }
    false
}

/// Whether one of an IA_PD that is asked for does.
fn ia_shares(upstream: &Managed, index: IfIndex, net: Net, now: u64, ia: &IaLease) -> bool
    requires { FitsManaged upstream.now }
    ensures { result ≡ ia_shares upstream.now index net now (ia_content ia.now) }
{
    match ia.kind {
        IaKind::Na => false,
        IaKind::Pd => {
            is_asked(&upstream.conf.dhcp6.ias, ia.iaid)
                && items_share(upstream, index, net, now, ia.iaid, &ia.items)
        }
    }
}

fn ias_share(upstream: &Managed, index: IfIndex, net: Net, now: u64, ias: &[IaLease]) -> bool
    requires { FitsManaged upstream.now }
    ensures { result ≡ list_any (ia_shares upstream.now index net now) (ias_content ias.now) }
{
    for ia in ias {
        if ia_shares(upstream, index, net, now, ia) {
            return true;
        }
    }
    false
}

fn lease_shares(
    upstream: &Managed,
    index: IfIndex,
    net: Net,
    now: u64,
    kept: &Kept6,
    lease: &Option<Lease6>,
) -> bool
    requires { FitsManaged upstream.now }
    ensures { result ≡ lease_shares upstream.now index net now kept.now (option_map lease6_content lease.now) }
{
    match lease {
        None => false,
        Some(lease) => {
            lease.origin.is_some()
                && ias_share(upstream, index, net, now, &lease.ias)
                && kept.up
                && kept.asked.is_asking(now)
        }
    }
}

/// Whether a prefix of the kept lease of the interface upstream gives the address to the interface of this index, at a
/// moment in milliseconds since 1970.
#[tactic(auto, using(crate::proofs::KeptTold::share_so))]
pub fn kept_shares(kept: &Kept6, upstream: &Site, index: IfIndex, net: Net, now: u64) -> bool
    requires { FitsSite upstream.now }
    ensures { (past : List told.Entry)
        → Tells6 kept.now (site_shown upstream.now) past
        → result ≡ is_kept_share (site_shown upstream.now) index net now past }
{
    upstream.managed.conf.flags.persistent
        && lease_shares(&upstream.managed, index, net, now, kept, &upstream.kept6)
}
