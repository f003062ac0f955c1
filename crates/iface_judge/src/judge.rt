//! The judges of an interface, joined: each is shown every turn, and what one of them tells rests on what was shown.

ghost use Rattle.std.specs.Prelude.{◌≡◌, true, List, IfOk};
ghost use Rattle.evidence_words.specs.Entries as told;
ghost use Rattle.evidence_words.specs.IfaceLives.{now_in};
ghost use Rattle.audit_words.specs.Shown.{FitsSite, site_shown};
ghost use Rattle.iface_judge.specs.Joined.{has_lease, is_granted, is_kept, is_own, is_shared, stands};
ghost use Rattle.iface_judge.specs.Telling.{AreSettled, Tells};

use crate::keeping::{kept_gives, kept_shares_out, kept4_turned, kept6_turned};
use crate::sharing::is_heard_share;
use audit_seats::{Judge, concerns};
use audit_words::{Entry, Site};
use item_judge::ItemJudge;
use lease_judge::{LeaseJudge, LocalJudge};
use net_types::{IfIndex, Net, NoMemory};
use share_judge::{Kept4, Kept6};
use static_judge::StaticJudge;
use std::alloc::Global;

/// What is kept of an interface, turn by turn, to tell which addresses rest on what it showed: as static ones, as
/// link-local ones, for the leases that servers gave, and for those of an earlier life. Where it is settled, a turn in
/// which nothing comes and nothing is offered changes nothing that is told.
#[derive(Drop)]
pub struct IfaceJudge {
    statics: StaticJudge,
    local: LocalJudge,
    lease: LeaseJudge,
    items: ItemJudge,
    kept4: Kept4,
    kept6: Kept6,
    settled: bool,
}

/// Whether a turn in which nothing comes and nothing is offered leaves what two judges tell of probed addresses.
fn are_settled(alloc: Global, local: &LocalJudge, lease: &LeaseJudge) -> Result<bool, NoMemory>
    ensures { IfOk result (λ settled. settled ≡ true → AreSettled local.now lease.now) }
{
    if !local.is_settled(alloc)? {
        return Ok(false);
    }
    let settled = lease.is_settled(alloc)?;
    Ok(settled)
}

impl IfaceJudge {
    /// Whether an address stands as a static or a link-local one.
    fn stands(&self, site: &Site, net: Net) -> bool
        ensures { (past : List told.Entry)
            → Tells self.now (site_shown site.now) past
            → result ≡ stands (site_shown site.now) net past }
    {
        self.statics.gives(site, net) || self.local.gives(net)
    }

    /// Whether a lease that a server gave has it.
    fn is_granted(&self, site: &Site, net: Net, moment: u64) -> bool
        ensures { (past : List told.Entry)
            → moment ≡ now_in past
            → Tells self.now (site_shown site.now) past
            → result ≡ is_granted (site_shown site.now) net past }
    {
        self.lease.gives(site, net, moment) || self.items.gives(site, net, moment)
    }

    /// Whether a lease of an earlier life has it.
    fn is_kept(&self, site: &Site, net: Net, moment: u64) -> bool
        requires { FitsSite site.now }
        ensures { (past : List told.Entry)
            → moment ≡ now_in past
            → Tells self.now (site_shown site.now) past
            → result ≡ is_kept (site_shown site.now) net past }
    {
        self.kept4.gives(site, net, moment) || kept_gives(&self.kept6, site, net, moment)
    }

    fn has_lease(&self, site: &Site, net: Net, moment: u64) -> bool
        requires { FitsSite site.now }
        ensures { (past : List told.Entry)
            → moment ≡ now_in past
            → Tells self.now (site_shown site.now) past
            → result ≡ has_lease (site_shown site.now) net past }
    {
        self.is_granted(site, net, moment) || self.is_kept(site, net, moment)
    }
}

impl Judge for IfaceJudge {
    ghost Tells = { Tells };

    ghost is_own = { is_own };

    ghost is_shared = { is_shared };

    #[tactic(auto, using(crate::proofs::Staying::local_first))]
    fn first(alloc: Global, site: &Site) -> Result<IfaceJudge, NoMemory> {
        Ok(IfaceJudge {
            statics: StaticJudge::first(site),
            local: LocalJudge::first(alloc, site),
            lease: LeaseJudge::first(alloc, site)?,
            items: ItemJudge::first(alloc, site)?,
            kept4: Kept4::first(site),
            kept6: Kept6::first(site),
            settled: false,
        })
    }

    fn turned(self, alloc: Global, site: &Site, entry: &Entry) -> Result<IfaceJudge, NoMemory> {
        let IfaceJudge {
            statics,
            local,
            lease,
            items,
            kept4,
            kept6,
            ..
        } = self;
        let local = local.turned(alloc, site, entry)?;
        let lease = lease.turned(alloc, site, entry)?;
        let items = items.turned(alloc, site, entry)?;
        let kept4 = kept4_turned(alloc, kept4, &lease, site, entry)?;
        let kept6 = kept6_turned(alloc, kept6, &items, site, entry)?;
        let settled = are_settled(alloc, &local, &lease)?;
        Ok(IfaceJudge {
            statics: statics.turned(site, entry),
            local,
            lease,
            items,
            kept4,
            kept6,
            settled,
        })
    }

    fn stays(&self, site: &Site, entry: &Entry) -> bool {
        self.settled && !concerns(site, entry)
    }

    fn owns(&self, site: &Site, net: Net, moment: u64) -> bool {
        self.stands(site, net) || self.has_lease(site, net, moment)
    }

    fn shares(&self, site: &Site, index: u32, net: Net, moment: u64) -> bool {
        let index = IfIndex { number: index };
        is_heard_share(&self.items, site, index, net, moment)
            || kept_shares_out(&self.kept6, site, index, net, moment)
    }
}
