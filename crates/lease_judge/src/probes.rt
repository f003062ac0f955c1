//! Which addresses of an interface were probed (RFC 5227, section 2.1.1), as it counts for leases.

ghost use Rattle.std.specs.Prelude.{◌≡◌, true, ◌++◌, [], filter, IfOk};
ghost use Rattle.std.specs.List.{list_all};
ghost use Rattle.net_types.specs.declared.address.Ip4.{Ip4};
ghost use Rattle.local_judge.specs.ProbeTables.ProbeTimes.{no_probes};
ghost use Rattle.local_judge.specs.ProbeTables.Table.{times_of};
ghost use Rattle.lease_judge.specs.Probes.{AreFresh, AreSettled, IsTurned, is_fresh, probed_of};

use audit_words::{Entry, Site};
use local_judge::{ProbeTable, is_past};
use net_types::{Ip4, NoMemory};
use std::alloc::{AllocError, Global};

/// The least time from the third probe of an address to the turn that makes it a probed one (RFC 5227, section 1.1).
const ANNOUNCE_WAIT: u64 = 2000;

/// How far the addresses of an interface were probed, and which of them are probed ones: a turn came two seconds after
/// their third probe, and each turn since was calm.
#[derive(Drop)]
pub struct LeaseProbes {
    table: ProbeTable,
    probed: Vec<Ip4>,
}

/// Those of some addresses that a turn makes probed ones.
fn fresh_among(
    alloc: Global,
    addrs: &[Ip4],
    probes: &LeaseProbes,
    now: u64,
) -> Result<Vec<Ip4>, AllocError>
    ensures { IfOk result (λ fresh. fresh.items ≡ filter (is_fresh probes.now now) addrs.now) }
{
    addrs
        .iter()
        .filter(|addr| probes.is_fresh(**addr, now))
        .copied()
        .collect(alloc)
}

fn joined(mut addrs: Vec<Ip4>, more: &[Ip4]) -> Result<Vec<Ip4>, AllocError>
    ensures { IfOk result (λ all. all.items ≡ addrs.items ++ more.now) }
{
    addrs.extend_from_slice(more)?;
    Ok(addrs)
}

impl LeaseProbes {
    /// Nothing is probed yet.
    pub fn new(alloc: Global) -> LeaseProbes
        ensures table { (addr : Ip4) → times_of result.table addr ≡ no_probes }
        ensures probed { result.probed.items ≡ [] }
    {
        LeaseProbes {
            table: ProbeTable::new(alloc),
            probed: Vec::new(alloc),
        }
    }

    /// Whether an address is a probed one.
    pub fn is_probed(&self, addr: Ip4) -> bool
        ensures { result ≡ probed_of self.now addr }
    {
        self.probed.contains(&addr)
    }

    /// Whether each address that was probed three times is a probed one.
    pub fn is_settled(&self, alloc: Global) -> Result<bool, NoMemory>
        ensures { IfOk result (λ settled. settled ≡ true → AreSettled self.now) }
    {
        let thrice = self.table.probed_thrice(alloc, 0, u64::MAX)?;
        Ok(self.are_probed(&thrice))
    }

    fn are_probed(&self, addrs: &[Ip4]) -> bool
        ensures { result ≡ list_all (probed_of self.now) addrs.now }
    {
        addrs.iter().all(|addr| self.is_probed(*addr))
    }

    /// Whether a turn makes an address a probed one that isn't yet.
    fn is_fresh(&self, addr: Ip4, now: u64) -> bool
        ensures { result ≡ is_fresh self.now now addr }
    {
        !self.is_probed(addr) && is_past(ANNOUNCE_WAIT, self.table.times(addr).third, now)
    }

    /// The addresses that a calm turn makes probed ones.
    fn fresh(&self, alloc: Global, now: u64) -> Result<Vec<Ip4>, NoMemory>
        ensures { IfOk result (λ fresh. AreFresh self.now now fresh.items) }
    {
        let ready = self.table.probed_thrice(alloc, ANNOUNCE_WAIT, now)?;
        let fresh = fresh_among(alloc, &ready, self, now)?;
        Ok(fresh)
    }

    /// After a turn, which is calm or isn't.
    #[tactic(auto, using(crate::proofs::ProbesHeld::calm_so, crate::proofs::ProbesHeld::broken_so))]
    pub fn turned(
        self,
        alloc: Global,
        site: &Site,
        entry: &Entry,
        calm: bool,
    ) -> Result<LeaseProbes, NoMemory>
        ensures { IfOk result (λ next. IsTurned site.now entry.now calm self next) }
    {
        if !calm {
            let table = self.table.turned(alloc, site, entry, false)?;
            let probed = Vec::new(alloc);
            return Ok(LeaseProbes { table, probed });
        }
        let fresh = self.fresh(alloc, entry.moment)?;
        let table = self.table.turned(alloc, site, entry, true)?;
        let probed = joined(self.probed, &fresh)?;
        Ok(LeaseProbes { table, probed })
    }
}
