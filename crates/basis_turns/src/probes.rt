//! In which turns an address was probed (RFC 5227, section 2.1.1). Turns are counted from 0, which is the opening.
ghost use Rattle.std.specs.Prelude.{◌≡◌};
ghost use Rattle.basis_turns.specs.Chains.{chain_after, fourth_after, is_same, no_chain, stays, three_after, two_after};

use probe_table::ProbeTimes;

/// The turns of three probes.
#[derive(Clone, Copy)]
pub struct ThreeProbes {
    pub first: usize,
    pub second: usize,
    pub third: usize,
}

/// The turns in which an address was probed, and the one that came two seconds or more after the third probe.
#[derive(Clone, Copy)]
pub struct ProbedTurns {
    pub probes: ThreeProbes,
    pub fourth: usize,
}

/// The turns of two probes.
#[derive(Clone, Copy)]
pub struct TwoProbes {
    pub first: usize,
    pub second: usize,
}

/// The turns of one probe, of two, and of three, each the earliest ones that still count, if there are any.
#[derive(Clone, Copy)]
pub struct ProbeChain {
    pub one: usize,
    pub two: TwoProbes,
    pub three: ThreeProbes,
}

/// Whether two moments, each of which may be there, are the same.
pub fn is_same(one: Option<u64>, other: Option<u64>) -> bool
    ensures { result ≡ is_same one other }
{
    match (one, other) {
        (Some(one), Some(other)) => one == other,
        (None, None) => true,
        (Some(_), None) | (None, Some(_)) => false,
    }
}

/// Whether the last probe after a turn is the one before it.
fn stays(calm: bool, before: Option<u64>, after: Option<u64>) -> bool
    ensures { result ≡ stays calm before after }
{
    calm && is_same(before, after)
}

impl ProbeChain {
    /// Before all turns.
    pub fn none() -> ProbeChain
        ensures { result ≡ no_chain }
    {
        ProbeChain {
            one: 0,
            two: TwoProbes {
                first: 0,
                second: 0,
            },
            three: ThreeProbes {
                first: 0,
                second: 0,
                third: 0,
            },
        }
    }

    /// The turns of two probes after the turn of a number, by how far the address was probed before it and after it.
    fn two_after(&self, number: usize, stays: bool) -> TwoProbes
        ensures { result ≡ two_after number stays self.now }
    {
        if stays {
            return self.two;
        }
        TwoProbes {
            first: self.one,
            second: number,
        }
    }

    /// Those of three.
    fn three_after(&self, number: usize, stays: bool) -> ThreeProbes
        ensures { result ≡ three_after number stays self.now }
    {
        if stays {
            return self.three;
        }
        ThreeProbes {
            first: self.two.first,
            second: self.two.second,
            third: number,
        }
    }

    /// After the turn of a number, by how far the address was probed before it and after it.
    pub fn after(
        &self,
        number: usize,
        calm: bool,
        before: ProbeTimes,
        after: ProbeTimes,
    ) -> ProbeChain
        ensures { result ≡ chain_after number calm before after self.now }
    {
        let one_stays = stays(calm, before.first, after.first);
        ProbeChain {
            one: if one_stays { self.one } else { number },
            two: self.two_after(number, stays(calm, before.second, after.second)),
            three: self.three_after(number, stays(calm, before.third, after.third)),
        }
    }
}

/// The turns in which the address is found to be probed after a turn of this number, which is calm or isn't, and which
/// comes two seconds or more after a third probe or doesn't. The earliest fourth turn counts.
pub fn fourth_after(
    number: usize,
    calm: bool,
    ready: bool,
    probes: ThreeProbes,
    found: Option<ProbedTurns>,
) -> Option<ProbedTurns>
    ensures { result ≡ fourth_after number calm ready probes found }
{
    if !calm {
        return None;
    }
    match found {
        Some(turns) => Some(turns),
        None if ready => Some(ProbedTurns {
            probes,
            fourth: number,
        }),
        None => None,
    }
}
