//! Whether an address is one out of a prefix that the Replies give the interface upstream (RFC 3633, section 12.1).

ghost use Rattle.std.specs.Prelude.{◌≡◌, ◌*◌, ◌-◌, ◌^◌, min, List};
ghost use Rattle.std.specs.List.{AllByRecursion, list_any};
ghost use Rattle.prefix_share.specs.Subnets.{FitsShare, address_count};
ghost use Rattle.settings.specs.Dhcp6Settings.{FitsShareConf};
ghost use Rattle.evidence_words.specs.Entries as told;
ghost use Rattle.evidence_words.specs.IfaceLives.{now_in};
ghost use Rattle.audit_words.specs.Shown.{FitsSite, site_shown};
ghost use Rattle.item_judge.specs.Judging as item_turns;
ghost use Rattle.iface_judge.specs.HeardShares.{is_heard_share, is_of, is_of_some, prefix_by};

use audit_words::Site;
use item_judge::ItemJudge;
use net_types::{IfIndex, Ip6, Net, Net6};
use prefix_share::Share;
use settings::ShareConf;
use share_judge::{HeldPrefix, shares_out};

/// The length of an address, in bits. A prefix is shorter.
const ADDRESS_BITS: u8 = 128;

/// What a share adds to a prefix, where that isn't more than all addresses.
fn added(share: &Share) -> u128
    requires { FitsShare share.now }
    ensures { result ≡ min (share.now.sla * address_count share.now.len) (2 ^ 128 - 1) }
{
    u128::from(share.sla).saturating_mul(1 << (ADDRESS_BITS - share.len))
}

/// The one prefix of this length that may have the address first in its subnet for the share.
#[tactic(auto, using(crate::proofs::ShareLoops::taken_off))]
fn prefix_by(net: Net6, share: &ShareConf, len: u8) -> HeldPrefix
    requires { FitsShareConf share.now }
    ensures { result ≡ prefix_by net share.now len }
{
    let last = net.ip.number.saturating_sub(1);
    let number = last.saturating_sub(added(&share.share));
    HeldPrefix {
        iaid: share.iaid,
        net: Net6 {
            ip: Ip6 { number },
            len,
        },
    }
}

/// Whether the interface upstream has this prefix, and gives the address out of it.
fn is_of(
    items: &ItemJudge,
    upstream: &Site,
    index: IfIndex,
    net: Net6,
    moment: u64,
    held: HeldPrefix,
) -> bool
    requires { FitsSite upstream.now }
    ensures { (past : List told.Entry)
        → moment ≡ now_in past
        → item_turns.Tells items.now (site_shown upstream.now) past
        → result ≡ is_of (site_shown upstream.now) index net past held }
{
    shares_out(&upstream.managed, index, Net::V6(net), &held)
        && items.holds_prefix(upstream, held.iaid, held.net, moment)
}

/// Whether it has a prefix of some length that gives the address for the share.
fn is_of_some(
    items: &ItemJudge,
    upstream: &Site,
    index: IfIndex,
    net: Net6,
    moment: u64,
    share: &ShareConf,
) -> bool
    requires site { FitsSite upstream.now }
    requires share { FitsShareConf share.now }
    ensures { (past : List told.Entry)
        → moment ≡ now_in past
        → item_turns.Tells items.now (site_shown upstream.now) past
        → result ≡ is_of_some (site_shown upstream.now) index net past share.now 128 }
{
    for len in 0..ADDRESS_BITS {
        let held = prefix_by(net, share, len);
        if is_of(items, upstream, index, net, moment, held) {
            return true;
        }
    }
    false
}

/// Whether it has one for some share.
fn some_share(
    items: &ItemJudge,
    upstream: &Site,
    index: IfIndex,
    net: Net6,
    moment: u64,
    shares: &[ShareConf],
) -> bool
    requires site { FitsSite upstream.now }
    requires shares { AllByRecursion FitsShareConf shares.now }
    ensures { (past : List told.Entry)
        → moment ≡ now_in past
        → item_turns.Tells items.now (site_shown upstream.now) past
        → result
        ≡ list_any (λ share. is_of_some (site_shown upstream.now) index net past share 128) shares.now }
{
    for share in shares {
        if is_of_some(items, upstream, index, net, moment, share) {
            return true;
        }
    }
    false
}

/// Whether an address of the interface of this index is one out of a prefix that the Replies give the interface
/// upstream, at the moment of its last turn.
pub(crate) fn is_heard_share(
    items: &ItemJudge,
    upstream: &Site,
    index: IfIndex,
    net: Net,
    moment: u64,
) -> bool
    requires { FitsSite upstream.now }
    ensures { (past : List told.Entry)
        → moment ≡ now_in past
        → item_turns.Tells items.now (site_shown upstream.now) past
        → result ≡ is_heard_share (site_shown upstream.now) index net past }
{
    match net {
        Net::V4(_) => false,
        Net::V6(net) => {
            let shares = &upstream.managed.conf.dhcp6.shares;
            some_share(items, upstream, index, net, moment, shares)
        }
    }
}
