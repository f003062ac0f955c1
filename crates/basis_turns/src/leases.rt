//! The turns on which a leased address rests (RFC 2131, sections 3.1 and 4.4). Turns are counted from 0, which is the
//! opening.
ghost use Rattle.std.specs.Prelude.{◌≡◌, [], ◌∷◌, length, List, IfOk};
ghost use Rattle.net_types.specs.declared.address.Ip4.{Ip4};
ghost use Rattle.net_types.specs.declared.address.Net.TheVariants.{V4};
ghost use Rattle.evidence_words.specs.Entries as told;
ghost use Rattle.audit_words.specs.Shown.{FitsSite, entry_shown, site_shown};
ghost use Rattle.basis_turns.specs.LeaseFinds.{granting_after, lease_found, opened_after};
ghost use Rattle.basis_turns.specs.LeaseWalks.{Tells};
ghost use Rattle.basis_turns.specs.Turns.{shown_after};

use crate::probe_walk::ProbeWalk;
use crate::probes::{ProbedTurns, is_same};
use crate::shown_turn::ShownTurn;
use audit_words::Site;
use lease_judge::LeaseJudge;
use net_types::{Ip4, Net, Net4, NoMemory};
use std::alloc::Global;

/// The turn in which an exchange opened with its first REQUEST, and that of its first ACK.
#[derive(Clone, Copy)]
pub struct Granting {
    pub request: usize,
    pub ack: usize,
}

/// The turns on which a leased address rests, and those in which it was probed, unless none is to be.
#[derive(Clone, Copy)]
pub struct LeaseTurns {
    pub granting: Granting,
    pub probed: Option<ProbedTurns>,
}

/// What is kept turn by turn: the turn in which the open exchange opened, those of the grant, and those in which an
/// address was probed.
#[derive(Drop)]
struct LeaseWalk {
    judge: LeaseJudge,
    opened: usize,
    granting: Granting,
    probes: ProbeWalk,
}

/// The turn in which the open exchange opened, after a turn.
fn opened_after(turn: usize, before: Option<u64>, after: Option<u64>, opened: usize) -> usize
    ensures { result ≡ opened_after turn before after opened }
{
    if is_same(before, after) { opened } else { turn }
}

impl Granting {
    /// After a turn, by the numbers of the exchanges that were granted.
    fn after(&self, turn: usize, before: Option<u64>, after: Option<u64>, opened: usize) -> Granting
        ensures { result ≡ granting_after turn before after opened self.now }
    {
        if is_same(before, after) {
            return *self;
        }
        Granting {
            request: opened,
            ack: turn,
        }
    }
}

impl LeaseWalk {
    /// Before all turns.
    fn first(alloc: Global, site: &Site) -> Result<LeaseWalk, NoMemory>
        requires { FitsSite site.now }
        ensures { IfOk result (λ walk. (addr : Ip4) → Tells (site_shown site.now) addr [] walk) }
    {
        Ok(LeaseWalk {
            judge: LeaseJudge::first(alloc, site)?,
            opened: 0,
            granting: Granting { request: 0, ack: 0 },
            probes: ProbeWalk::new(alloc),
        })
    }

    /// After the turn of a number.
    fn turned(
        self,
        alloc: Global,
        site: &Site,
        turn: &ShownTurn,
        addr: Ip4,
        number: usize,
    ) -> Result<LeaseWalk, NoMemory>
        ensures { IfOk result
            (λ next. (past : List told.Entry)
            → number ≡ length past
            → Tells (site_shown site.now) addr past self
            → Tells (site_shown site.now) addr (entry_shown turn.now.entry ∷ past) next) }
    {
        let entry = &turn.entry;
        let open = self.judge.open_number();
        let granted = self.judge.granted_number();
        let calm = self.judge.is_calm(alloc, site, entry)?;
        let probes = self.probes.turned(alloc, site, entry, addr, number, calm)?;
        let judge = self.judge.turned(alloc, site, entry)?;
        let next_open = judge.open_number();
        let next_granted = judge.granted_number();
        let opened = opened_after(number, open, next_open, self.opened);
        let granting = self.granting.after(number, granted, next_granted, opened);
        Ok(LeaseWalk {
            judge,
            opened,
            granting,
            probes,
        })
    }

    /// After some turns.
    fn after(
        alloc: Global,
        site: &Site,
        turns: &[ShownTurn],
        addr: Ip4,
    ) -> Result<LeaseWalk, NoMemory>
        requires { FitsSite site.now }
        ensures { IfOk result (λ walk. Tells (site_shown site.now) addr (shown_after [] turns.now) walk) }
    {
        let mut walk = LeaseWalk::first(alloc, site)?;
        'turns: for (number, turn) in turns.iter().enumerate() {
            let next = walk.turned(alloc, site, turn, addr, number)?;
            walk = next;
        }
        Ok(walk)
    }

    /// The turns on which an address rests as a leased one.
    fn found(&self, site: &Site, net: Net4, now: u64) -> Option<LeaseTurns>
        ensures { (past : List told.Entry)
            → Tells (site_shown site.now) net.ip past self.now
            → result ≡ lease_found (site_shown site.now) (V4 net) now past }
    {
        if !self.judge.gives(site, Net::V4(net), now) {
            return None;
        }
        Some(LeaseTurns {
            granting: self.granting,
            probed: if site.managed.conf.flags.noarp {
                None
            } else {
                self.probes.probed
            },
        })
    }
}

/// The turns on which an address rests as a leased one after some turns, at a moment in milliseconds since 1970, if it
/// does.
pub fn lease_found(
    alloc: Global,
    site: &Site,
    turns: &[ShownTurn],
    net: Net4,
    now: u64,
) -> Result<Option<LeaseTurns>, NoMemory>
    requires { FitsSite site.now }
    ensures { IfOk result
        (λ found. found ≡ lease_found (site_shown site.now) (V4 net) now (shown_after [] turns.now)) }
{
    let walk = LeaseWalk::after(alloc, site, turns, net.ip)?;
    Ok(walk.found(site, net, now))
}
