//! The turns on which a link-local address rests (RFC 3927, sections 2.2.1 and 2.5). Turns are counted from 0, which is
//! the opening.
ghost use Rattle.std.specs.Prelude.{◌≡◌, [], ◌∷◌, length, List, IfOk};
ghost use Rattle.net_types.specs.declared.address.Ip4.{Ip4};
ghost use Rattle.net_types.specs.declared.address.Net.TheVariants.{V4};
ghost use Rattle.evidence_words.specs.Entries as told;
ghost use Rattle.evidence_words.specs.Inputs as told_of;
ghost use Rattle.audit_words.specs.Shown.{entry_shown, site_shown};
ghost use Rattle.lease_judge.specs.LocalJudges.Choices.{turn_for};
ghost use Rattle.basis_turns.specs.LocalFinds.{begun_in, earliest_after, first_of, gone_on, latest_after, local_found};
ghost use Rattle.basis_turns.specs.LocalWalks.{Tells};
ghost use Rattle.basis_turns.specs.Turns.{shown_after};

use crate::probe_walk::ProbeWalk;
use crate::probes::{ProbedTurns, ThreeProbes};
use crate::shown_turn::ShownTurn;
use audit_words::{Entry, Site};
use lease_judge::{Choice, ChoiceTurn, LocalJudge, goes_on, is_alone};
use net_types::{Ip4, Net, Net4, NoMemory};
use probe_table::{ProbeTimes, arp_on, carrier_after, is_past, is_use};
use std::alloc::Global;

/// The least time from the third probe of an address to the fourth turn, in milliseconds (RFC 5227, section 1.1).
const ANNOUNCE_WAIT: u64 = 2000;

/// A choice that stands, and the turns of its probes.
#[derive(Clone, Copy)]
pub struct Standing {
    pub choice: Choice,
    pub turns: ProbedTurns,
}

/// A choice that begins in the turn of a number, behind three probes.
fn begun_in(number: usize, probes: ThreeProbes, turn: &ChoiceTurn) -> Option<Standing>
    ensures { result ≡ begun_in number probes turn.now }
{
    match turn.choice_after(None) {
        Some(choice) => Some(Standing {
            choice,
            turns: ProbedTurns {
                probes,
                fourth: number,
            },
        }),
        None => None,
    }
}

/// A choice that stands, while it does.
fn gone_on(turn: &ChoiceTurn, standing: Option<Standing>) -> Option<Standing>
    ensures { result ≡ gone_on turn.now standing }
{
    let Some(standing) = standing else {
        return None;
    };
    let later = ChoiceTurn {
        moment: turn.moment,
        fits: turn.fits,
        fourth: false,
        used: turn.used,
    };
    match later.choice_after(Some(standing.choice)) {
        Some(choice) => Some(Standing {
            choice,
            turns: standing.turns,
        }),
        None => None,
    }
}

fn first_of(one: Option<Standing>, other: Option<Standing>) -> Option<Standing>
    ensures { result ≡ first_of one other }
{
    match one {
        Some(standing) => Some(standing),
        None => other,
    }
}

/// What a turn is to an address, which was probed so far before it.
fn turn_for(
    alloc: Global,
    site: &Site,
    entry: &Entry,
    addr: Ip4,
    calm: bool,
    times: ProbeTimes,
) -> Result<ChoiceTurn, NoMemory>
    ensures { IfOk result (λ turn. turn ≡ turn_for calm (site_shown site.now) addr (entry_shown entry.now) times) }
{
    let alone = is_alone(alloc, site, entry, addr)?;
    Ok(ChoiceTurn {
        moment: entry.moment,
        fits: calm && alone,
        fourth: is_past(ANNOUNCE_WAIT, times.third, entry.moment),
        used: is_use(&site.own, addr, arp_on(site, entry)),
    })
}

/// What is kept turn by turn: whether the interface has carrier, in which turns an address was probed, and its choice:
/// the one that stands as long as it can, and the one that begins anew where it may.
#[derive(Drop)]
struct LocalWalk {
    judge: LocalJudge,
    up: bool,
    probes: ProbeWalk,
    earliest: Option<Standing>,
    latest: Option<Standing>,
}

impl LocalWalk {
    /// Before all turns.
    fn first(alloc: Global, site: &Site) -> LocalWalk
        ensures { (addr : Ip4) → Tells (site_shown site.now) addr [] result }
    {
        LocalWalk {
            judge: LocalJudge::first(alloc, site),
            up: site.up,
            probes: ProbeWalk::new(alloc),
            earliest: None,
            latest: None,
        }
    }

    /// After the turn of a number.
    fn turned(
        self,
        alloc: Global,
        site: &Site,
        turn: &ShownTurn,
        addr: Ip4,
        number: usize,
    ) -> Result<LocalWalk, NoMemory>
        ensures { IfOk result
            (λ next. (past : List told.Entry)
            → number ≡ length past
            → Tells (site_shown site.now) addr past self
            → Tells (site_shown site.now) addr (entry_shown turn.now.entry ∷ past) next) }
    {
        let entry = &turn.entry;
        let index = site.index();
        let calm = goes_on(self.up, index, entry.event);
        let times = self.probes.table.times(addr);
        let met = turn_for(alloc, site, entry, addr, calm, times)?;
        let begun = begun_in(number, self.probes.chain.three, &met);
        let older = gone_on(&met, self.earliest);
        let newer = gone_on(&met, self.latest);
        let up = carrier_after(index, entry.event, self.up);
        let judge = self.judge.turned(alloc, site, entry)?;
        let probes = self.probes.turned(alloc, site, entry, addr, number, calm)?;
        Ok(LocalWalk {
            judge,
            up,
            probes,
            earliest: first_of(older, begun),
            latest: first_of(begun, newer),
        })
    }

    /// After some turns.
    fn after(
        alloc: Global,
        site: &Site,
        turns: &[ShownTurn],
        addr: Ip4,
    ) -> Result<LocalWalk, NoMemory>
        ensures { IfOk result (λ walk. Tells (site_shown site.now) addr (shown_after [] turns.now) walk) }
    {
        let mut walk = LocalWalk::first(alloc, site);
        'turns: for (number, turn) in turns.iter().enumerate() {
            let next = walk.turned(alloc, site, turn, addr, number)?;
            walk = next;
        }
        Ok(walk)
    }

    /// The turns on which an address rests as a link-local one.
    fn found(&self, net: Net4) -> Option<ProbedTurns>
        ensures { (site : told_of.Site) (past : List told.Entry)
            → Tells site net.ip past self.now
            → result ≡ local_found site (V4 net) past }
    {
        if !self.judge.gives(Net::V4(net)) {
            return None;
        }
        match first_of(self.earliest, self.latest) {
            Some(standing) => Some(standing.turns),
            None => None,
        }
    }
}

/// The turns on which an address rests as a link-local one after some turns, if it does.
pub fn local_found(
    alloc: Global,
    site: &Site,
    turns: &[ShownTurn],
    net: Net4,
) -> Result<Option<ProbedTurns>, NoMemory>
    ensures { IfOk result (λ found. found ≡ local_found (site_shown site.now) (V4 net) (shown_after [] turns.now)) }
{
    let walk = LocalWalk::after(alloc, site, turns, net.ip)?;
    Ok(walk.found(net))
}
