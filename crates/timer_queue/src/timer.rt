//! A moment with the key that is due then, and the total order that puts the earliest moment last.

ghost use Rattle.std.specs.Cmp.{partial_order_from_total, partial_equiv_from_equiv};
ghost use Rattle.std.specs.Cmp.Rules.{comparing};
ghost use Rattle.std.specs.Ordering.{as_partial_cmp, eq_by_cmp};
ghost use Rattle.std.proofs.Common.{rules};
ghost use Rattle.timer_queue.specs.Timers.{timer_cmp, timer_cmp_total, timer_eq_equivalence};

use std::cmp::Ordering;

/// A key and the moment at which it is due. Timers are ordered backwards in time, so that the earliest is the last of
/// those in order; of two at one moment the one with the lesser key is the later in order.
#[derive(Clone, Copy)]
pub struct Timer {
    pub due: u64,
    pub key: usize,
}

impl Ord for Timer {
    ghost cmp = { timer_cmp };

    ghost total = { timer_cmp_total };

    ghost matches_partial_cmp = { Prim.search (comparing, rules) };

    ghost matches_eq = { Prim.search (comparing, rules) };

    fn cmp(&self, other: &Timer) -> Ordering {
        other.due.cmp(&self.due).then(other.key.cmp(&self.key))
    }
}

impl PartialOrd for Timer {
    ghost partial_cmp = { as_partial_cmp timer_cmp };

    ghost laws = { partial_order_from_total timer_cmp_total };

    fn partial_cmp(&self, other: &Timer) -> Option<Ordering> {
        Some(self.cmp(other))
    }
}

impl Eq for Timer {
    ghost laws = { timer_eq_equivalence };
}

impl PartialEq for Timer {
    ghost eq = { eq_by_cmp timer_cmp };

    ghost laws = { partial_equiv_from_equiv timer_eq_equivalence };

    fn eq(&self, other: &Timer) -> bool {
        self.cmp(other).is_eq()
    }
}
