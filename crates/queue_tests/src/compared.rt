//! Keys that count their comparisons.
ghost use Rattle.std.specs.Prelude.{◌≡◌};
ghost use Rattle.std.specs.Cmp.{partial_order_from_total, partial_equiv_from_equiv, eq_by_cmp_equiv, nat_cmp_total, on_total};
ghost use Rattle.std.specs.Cmp.Rules.{comparing};
ghost use Rattle.std.specs.Ordering.{as_partial_cmp, eq_by_cmp, nat_cmp, on};
ghost use Rattle.std.proofs.Common.{rules};

use counted_search::{Counted, Steps};
use std::cell::Cell;
use std::cmp::Ordering;
use std::process::Abort;

/// A number that counts how often it is compared.
#[derive(Clone, Copy)]
pub struct Compared<'a> {
    pub number: u32,
    compared: &'a Cell<u64>,
}

impl Ord for Compared<'_> {
    ghost cmp = { on (λ key. key.number) nat_cmp };

    ghost total = { Prim.search (comparing, rules) };

    ghost matches_partial_cmp = { Prim.search (comparing, rules) };

    ghost matches_eq = { Prim.search (comparing, rules) };

    fn cmp(&self, other: &Self) -> Ordering {
        self.compared.set(self.compared.get().wrapping_add(1));
        self.number.cmp(&other.number)
    }
}

impl PartialOrd for Compared<'_> {
    ghost partial_cmp = { as_partial_cmp (on (λ key. key.number) nat_cmp) };

    ghost laws = { partial_order_from_total (on_total (λ key. key.number) nat_cmp_total) };

    fn partial_cmp(&self, other: &Self) -> Option<Ordering> {
        Some(self.cmp(other))
    }
}

impl Eq for Compared<'_> {
    ghost laws = { eq_by_cmp_equiv (on_total (λ key. key.number) nat_cmp_total) };
}

impl PartialEq for Compared<'_> {
    ghost eq = { eq_by_cmp (on (λ key. key.number) nat_cmp) };

    ghost laws = { partial_equiv_from_equiv (eq_by_cmp_equiv (on_total (λ key. key.number) nat_cmp_total)) };

    fn eq(&self, other: &Self) -> bool {
        self.cmp(other).is_eq()
    }
}

/// A key by this number.
pub fn key(number: u32, compared: &Cell<u64>) -> Compared<'_> {
    Compared { number, compared }
}

/// The ledger has the comparisons that the keys have counted, and they are at most so many. Both begin anew.
pub fn counted(rt: &impl Abort, steps: &mut Steps<Counted>, compared: &Cell<u64>, most: u64) {
    assert_eq!(rt; steps.ledger().steps, compared.get());
    assert!(rt; compared.get() <= most);
    *steps = Steps::new(Counted { steps: 0 });
    compared.set(0);
}
