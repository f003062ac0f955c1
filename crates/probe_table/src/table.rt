//! How far each address of an interface was probed.

ghost use Rattle.std.specs.Prelude.{◌≡◌, IfOk};
ghost use Rattle.std.specs.List.{filter_map, list_any};
ghost use Rattle.net_types.specs.declared.address.Ip4.{Ip4};
ghost use Rattle.probe_table.specs.ByAddress.{is_for};
ghost use Rattle.probe_table.specs.ProbeTimes.{no_probes};
ghost use Rattle.probe_table.specs.Table.{AreEntered, AreProbed, IsTurned, addr_of, left_of, rests_in, thrice_in, times_at, times_of, turn_at};

use crate::inputs::{arp_on, is_contest};
use crate::targets::probed_targets;
use crate::times::{ProbeTimes, ProbeTurn, is_past};
use audit_words::{Entry, Site};
use frame_link::ArpView;
use net_types::{Ip4, Mac, NoMemory};
use std::alloc::{AllocError, Global};

/// An address that is probed, and how far.
#[derive(Clone, Copy)]
pub struct Probing {
    pub addr: Ip4,
    pub times: ProbeTimes,
}

/// What a turn is to the addresses of an interface: its moment, the hardware addresses of the host, the ARP packet that
/// came in, whether what was probed before still counts, and the addresses for which the link took a probe.
#[derive(Clone, Copy)]
struct TableTurn<'a> {
    moment: u64,
    own: &'a [Mac],
    arp: Option<ArpView>,
    calm: bool,
    targets: &'a [Ip4],
}

impl TableTurn<'_> {
    /// What the turn is to one address.
    fn to(&self, addr: Ip4) -> ProbeTurn
        ensures { result ≡ turn_at self.now addr }
    {
        ProbeTurn {
            moment: self.moment,
            contested: is_contest(self.own, addr, self.arp),
            calm: self.calm,
            probed: self.targets.contains(&addr),
        }
    }

    /// What is left of an address that is probed.
    fn left(&self, probing: &Probing) -> Option<Probing>
        ensures { result ≡ left_of self.now probing.now }
    {
        let turn = self.to(probing.addr);
        if turn.contested || !(turn.calm || turn.probed) {
            return None;
        }
        Some(Probing {
            addr: probing.addr,
            times: probing.times.after(&turn),
        })
    }
}

/// Whether an address stands among those that are probed.
fn has(probings: &[Probing], addr: Ip4) -> bool
    ensures { result ≡ list_any (is_for addr_of addr) probings.now }
{
    probings.iter().any(|probing| probing.addr == addr)
}

/// How far an address was probed.
fn times_among(probings: &[Probing], addr: Ip4) -> ProbeTimes
    ensures { result ≡ times_at probings.now addr }
{
    for probing in probings {
        if probing.addr == addr {
            return probing.times;
        }
    }
    ProbeTimes::none()
}

/// The addresses of those entries that tell of a third probe so many milliseconds ago.
fn thrice_among(
    alloc: Global,
    probings: &[Probing],
    wait: u64,
    now: u64,
) -> Result<Vec<Ip4>, AllocError>
    ensures { IfOk result (λ addrs. addrs.items ≡ thrice_in wait now probings.now) }
{
    probings
        .iter()
        .filter(|probing| is_past(wait, probing.times.third, now))
        .map(|probing| probing.addr)
        .collect(alloc)
}

/// The addresses that are probed, and behind them those of the targets that weren't among them.
fn entered(mut probings: Vec<Probing>, targets: &[Ip4]) -> Result<Vec<Probing>, AllocError>
    ensures { IfOk result (λ all. AreEntered probings.items targets.now all.items) }
{
    for target in targets {
        if !has(&probings, *target) {
            probings.push(Probing {
                addr: *target,
                times: ProbeTimes::none(),
            })?;
        }
    }
    Ok(probings)
}

/// What is left of the addresses after a turn.
fn left_among(
    alloc: Global,
    probings: &[Probing],
    turn: &TableTurn<'_>,
) -> Result<Vec<Probing>, AllocError>
    ensures { IfOk result (λ left. left.items ≡ filter_map (left_of turn.now) probings.now) }
{
    probings
        .iter()
        .filter_map(|probing| turn.left(probing))
        .collect(alloc)
}

/// The addresses of an interface that are probed, and how far.
#[derive(Drop)]
pub struct ProbeTable {
    probings: Vec<Probing>,
}

impl ProbeTable {
    /// Nothing is probed yet.
    pub fn new(alloc: Global) -> ProbeTable
        ensures { (addr : Ip4) → times_of result addr ≡ no_probes }
    {
        ProbeTable {
            probings: Vec::new(alloc),
        }
    }

    /// How far an address was probed.
    pub fn times(&self, addr: Ip4) -> ProbeTimes
        ensures { result ≡ times_of self.now addr }
    {
        times_among(&self.probings, addr)
    }

    /// The addresses that were probed three times, the last of them so many milliseconds ago.
    pub fn probed_thrice(&self, alloc: Global, wait: u64, now: u64) -> Result<Vec<Ip4>, NoMemory>
        ensures { IfOk result (λ addrs. AreProbed wait now self.now addrs.items) }
    {
        let addrs = thrice_among(alloc, &self.probings, wait, now)?;
        Ok(addrs)
    }

    /// Whether a turn changes nothing: no probe was taken, and there is nothing to change, or what was probed counts on
    /// and no ARP packet came.
    fn rests(&self, turn: &TableTurn<'_>) -> bool
        ensures { result ≡ rests_in turn.now self.now }
    {
        turn.targets.is_empty() && (self.probings.is_empty() || turn.calm && turn.arp.is_none())
    }

    /// The table after a turn. It is told whether what was probed before still counts.
    pub fn turned(
        self,
        alloc: Global,
        site: &Site,
        entry: &Entry,
        calm: bool,
    ) -> Result<ProbeTable, NoMemory>
        ensures { IfOk result (λ next. IsTurned site.now entry.now calm self next) }
    {
        let targets = probed_targets(alloc, site, &entry.offers)?;
        let turn = TableTurn {
            moment: entry.moment,
            own: &site.own,
            arp: arp_on(site, entry),
            calm,
            targets: &targets,
        };
        if self.rests(&turn) {
            return Ok(self);
        }
        let all = entered(self.probings, turn.targets)?;
        let probings = left_among(alloc, &all, &turn)?;
        Ok(ProbeTable { probings })
    }
}
