//! How many comparisons were made.
ghost use Rattle.std.specs.Prelude.{◌≡◌, ◌+◌, ◌≤◌};

use crate::ledger::{Ledger, Plain};
use std::cmp::Ordering;
use std::marker::Model;
use std::mem::size_of;

/// A count of steps, each the comparison of two keys: the number that a ledger has. Over `Plain` it takes no bytes.
#[derive(Drop)]
pub struct Steps<L: Ledger> {
    ledger: L,
}

const _: () = prove!(size_of::<Steps<Plain>>() == 0);

impl<L: Ledger> Model for Steps<L> {
    ghost use Rattle.std.specs.Prelude.{ℕ};

    ghost Value = { ℕ };

    ghost view = { λ steps. L.count steps.ledger };
}

impl<L: Ledger> Steps<L> {
    /// The steps that the ledger has.
    pub fn new(ledger: L) -> Steps<L>
        ensures { result ≡ L.count ledger }
    {
        Steps { ledger }
    }

    /// Compares two keys, which is one step.
    pub fn compare<K: Ord>(&mut self, one: &K, other: &K) -> Ordering
        ensures order { result ≡ K.cmp one.now other.now }
        ensures grows { self.old ≤ self.new }
        ensures one { self.new ≤ self.old + 1 }
    {
        self.ledger.tick();
        one.cmp(other)
    }

    /// The ledger, with the steps so far.
    pub fn ledger(&self) -> &L
        ensures { L.count result.now ≡ self.now }
    {
        &self.ledger
    }
}
