//! How far one address was probed. Moments are in milliseconds since 1970.

ghost use Rattle.std.specs.Prelude.{◌≡◌};
ghost use Rattle.probe_table.specs.ProbeTimes.{earlier_of, is_past, last_probe, no_probes, only_if, times_after};

/// The least time between two probes of an address (RFC 5227, section 1.1).
const PROBE_GAP: u64 = 1000;

/// The earliest moment at which one probe was the last of one, of two, and of three (RFC 5227, section 2.1.1), in
/// milliseconds since 1970.
#[derive(Clone, Copy)]
pub struct ProbeTimes {
    pub first: Option<u64>,
    pub second: Option<u64>,
    pub third: Option<u64>,
}

/// What a turn is to an address that is probed: its moment, whether another host contests the address, whether what was
/// probed before still counts, and whether the link took a probe.
#[derive(Clone, Copy)]
pub struct ProbeTurn {
    pub moment: u64,
    pub contested: bool,
    pub calm: bool,
    pub probed: bool,
}

/// Whether a moment is so many milliseconds ago.
pub fn is_past(wait: u64, moment: Option<u64>, now: u64) -> bool
    ensures { result ≡ is_past wait moment now }
{
    match moment {
        Some(moment) => moment <= now && now - moment >= wait,
        None => false,
    }
}

fn earlier_of(one: Option<u64>, other: Option<u64>) -> Option<u64>
    ensures { result ≡ earlier_of one other }
{
    match (one, other) {
        (None, _) => other,
        (Some(_), None) => one,
        (Some(first), Some(second)) => Some(if first <= second { first } else { second }),
    }
}

fn only_if(counts: bool, moment: Option<u64>) -> Option<u64>
    ensures { result ≡ only_if counts moment }
{
    if counts { moment } else { None }
}

impl ProbeTurn {
    /// The moment of a last probe after the turn, which may be ready for one.
    fn last_probe(&self, ready: bool, before: Option<u64>) -> Option<u64>
        ensures { result ≡ last_probe self.now ready before }
    {
        if self.contested {
            return None;
        }
        earlier_of(
            only_if(self.calm, before),
            only_if(self.probed && ready, Some(self.moment)),
        )
    }
}

impl ProbeTimes {
    /// Of an address that wasn't probed.
    pub fn none() -> ProbeTimes
        ensures { result ≡ no_probes }
    {
        ProbeTimes {
            first: None,
            second: None,
            third: None,
        }
    }

    /// After a turn. A further probe comes a second or more after the one before it.
    pub fn after(&self, turn: &ProbeTurn) -> ProbeTimes
        ensures { result ≡ times_after turn.now self.now }
    {
        let second_ready = turn.calm && is_past(PROBE_GAP, self.first, turn.moment);
        let third_ready = turn.calm && is_past(PROBE_GAP, self.second, turn.moment);
        ProbeTimes {
            first: turn.last_probe(true, self.first),
            second: turn.last_probe(second_ready, self.second),
            third: turn.last_probe(third_ready, self.third),
        }
    }
}
