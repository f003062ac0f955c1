//! The items that may be held as those of the kept lease of DHCPv6 (RFC 8415, section 18.2.12).

ghost use Rattle.std.specs.Prelude.{◌≡◌, List, option_map};
ghost use Rattle.std.specs.List.{list_any};
ghost use Rattle.audit_words.specs.EvidenceWords.Entries as told;
ghost use Rattle.lease6_text.specs.Leases.{ias_content, lease6_content};
ghost use Rattle.lease6_text.specs.LineParts.{is_ia};
ghost use Rattle.kept_judge.specs.Staying.{is_same_net};
ghost use Rattle.audit_words.specs.Shown.{site_shown};
ghost use Rattle.kept_judge.specs.Asking6.{Tells6, gives6, gives_address6, has_live_item, is_kept6, is_kept_address6, is_live_item, is_na};

use crate::standing::Kept6;
use audit_words::Site;
use lease6_text::{IaLease, Item6, Lease6};
use machine::has_come;
use net_types::{Net, Net6};
use v6_items::{IaAsk, is_same_kind};
use v6_options::IaKind;

fn is_same_net(one: Net6, other: Net6) -> bool
    ensures { result ≡ is_same_net one other }
{
    one.ip == other.ip && one.len == other.len
}

/// Whether an item is this one, and its valid lifetime isn't over.
fn is_live_item(net: Net6, now: u64, item: &Item6) -> bool
    ensures { result ≡ is_live_item net now item.now }
{
    is_same_net(item.net, net) && !has_come(item.valid, now)
}

fn some_live(items: &[Item6], net: Net6, now: u64) -> bool
    ensures { result ≡ list_any (is_live_item net now) items.now }
{
    items.iter().any(|item| is_live_item(net, now, item))
}

/// Whether the IA of this kind and IAID has the item among those of a lease.
fn has_item(ias: &[IaLease], ask: IaAsk, net: Net6, now: u64) -> bool
    ensures { result ≡ has_live_item (is_ia (ask.kind, ask.iaid)) net now (ias_content ias.now) }
{
    for ia in ias {
        let is_it = is_same_kind(ia.kind, ask.kind) && ia.iaid == ask.iaid;
        if is_it && some_live(&ia.items, net, now) {
            return true;
        }
    }
    false
}

/// Whether some IA_NA has the address.
fn has_address(ias: &[IaLease], net: Net6, now: u64) -> bool
    ensures { result ≡ has_live_item is_na net now (ias_content ias.now) }
{
    for ia in ias {
        if is_same_kind(ia.kind, IaKind::Na) && some_live(&ia.items, net, now) {
            return true;
        }
    }
    false
}

impl Kept6 {
    fn gives_item(&self, lease: &Option<Lease6>, ask: IaAsk, net: Net6, now: u64) -> bool
        ensures { result
            ≡ gives6 (is_ia (ask.kind, ask.iaid)) net now self.now (option_map lease6_content lease.now) }
    {
        match lease {
            None => false,
            Some(lease) => {
                lease.origin.is_some()
                    && has_item(&lease.ias, ask, net, now)
                    && self.up
                    && self.asked.is_asking(now)
            }
        }
    }

    fn gives_address(&self, lease: &Option<Lease6>, net: Net6, now: u64) -> bool
        ensures { result ≡ gives6 is_na net now self.now (option_map lease6_content lease.now) }
    {
        match lease {
            None => false,
            Some(lease) => {
                lease.origin.is_some()
                    && has_address(&lease.ias, net, now)
                    && self.up
                    && self.asked.is_asking(now)
            }
        }
    }

    fn gives_net(&self, lease: &Option<Lease6>, net: Net, now: u64) -> bool
        ensures { result ≡ gives_address6 net now self.now (option_map lease6_content lease.now) }
    {
        match net {
            Net::V4(_) => false,
            Net::V6(net) => self.gives_address(lease, net, now),
        }
    }

    /// Whether an item of an IA may be held as one of the kept lease, at a moment in milliseconds since 1970.
    #[tactic(auto, using(crate::proofs::Spoken::item_so))]
    pub fn holds(&self, site: &Site, ask: IaAsk, net: Net6, now: u64) -> bool
        ensures { (past : List told.Entry)
            → Tells6 self.now (site_shown site.now) past
            → result ≡ is_kept6 (site_shown site.now) ask net now past }
    {
        site.managed.conf.flags.persistent && self.gives_item(&site.kept6, ask, net, now)
    }

    /// Whether an address may be held as one of the kept lease, at a moment in milliseconds since 1970.
    #[tactic(auto, using(crate::proofs::Spoken::address_so))]
    pub fn gives(&self, site: &Site, net: Net, now: u64) -> bool
        ensures { (past : List told.Entry)
            → Tells6 self.now (site_shown site.now) past
            → result ≡ is_kept_address6 (site_shown site.now) net now past }
    {
        site.managed.conf.flags.persistent && self.gives_net(&site.kept6, net, now)
    }
}
