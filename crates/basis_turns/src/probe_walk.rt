//! How far an address was probed, and in which turns, kept turn by turn.
ghost use Rattle.std.specs.Prelude.{◌≡◌, [], ◌∷◌, length, IfOk, List};
ghost use Rattle.net_types.specs.declared.address.Ip4.{Ip4};
ghost use Rattle.evidence_words.specs.Entries as told;
ghost use Rattle.evidence_words.specs.Inputs as told_of;
ghost use Rattle.audit_words.specs.Shown.{entry_shown, site_shown};
ghost use Rattle.probe_table.specs.ProbeTimes.{TurnTest};
ghost use Rattle.basis_turns.specs.ProbeWalks.{Holds};

use crate::probes::{ProbeChain, ProbedTurns, fourth_after};
use audit_words::{Entry, Site};
use net_types::{Ip4, NoMemory};
use probe_table::{ProbeTable, is_past};
use std::alloc::Global;

/// The least time from the third probe of an address to the fourth turn, in milliseconds (RFC 5227, section 1.1).
const ANNOUNCE_WAIT: u64 = 2000;

/// How far addresses were probed, and the turns of the probes of one of them.
#[derive(Drop)]
pub struct ProbeWalk {
    pub table: ProbeTable,
    pub chain: ProbeChain,
    pub probed: Option<ProbedTurns>,
}

impl ProbeWalk {
    /// Before all turns.
    pub fn new(alloc: Global) -> ProbeWalk
        ensures { (calm : TurnTest) (site : told_of.Site) (addr : Ip4) → Holds calm site addr [] result }
    {
        ProbeWalk {
            table: ProbeTable::new(alloc),
            chain: ProbeChain::none(),
            probed: None,
        }
    }

    /// After the turn of a number, which is calm or isn't.
    pub fn turned(
        self,
        alloc: Global,
        site: &Site,
        entry: &Entry,
        addr: Ip4,
        number: usize,
        calm: bool,
    ) -> Result<ProbeWalk, NoMemory>
        ensures { IfOk result
            (λ next. (test : TurnTest) (past : List told.Entry)
            → number ≡ length past
            → calm ≡ test (entry_shown entry.now) past
            → Holds test (site_shown site.now) addr past self
            → Holds test (site_shown site.now) addr (entry_shown entry.now ∷ past) next) }
    {
        let before = self.table.times(addr);
        let ready = is_past(ANNOUNCE_WAIT, before.third, entry.moment);
        let probed = fourth_after(number, calm, ready, self.chain.three, self.probed);
        let table = self.table.turned(alloc, site, entry, calm)?;
        let after = table.times(addr);
        let chain = self.chain.after(number, calm, before, after);
        Ok(ProbeWalk {
            table,
            chain,
            probed,
        })
    }
}
