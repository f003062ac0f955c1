//! The first key from another one on.
ghost use Rattle.std.specs.Prelude.{ℕ, ◌+◌, ◌^◌, ◌<◌, ◌≤◌, length, IfSome, IfNone};
ghost use Rattle.std.specs.List.Sorted.{IsStrictlySortedBy};
ghost use Rattle.counted_search.specs.Ordered.{BeginsAt, IsAboveAll, IsFirstFrom};

use crate::ledger::Ledger;
use crate::search::find;
use crate::steps::Steps;

/// Where the keys begin that aren't below this one.
fn beginning<K: Ord, L: Ledger>(keys: &[K], key: &K, steps: &mut Steps<L>) -> usize
    requires { IsStrictlySortedBy K.cmp keys.now }
    ensures begins { BeginsAt K.cmp keys.now key.now result }
    ensures grows { steps.old ≤ steps.new }
    ensures steps { (n : ℕ) → length keys.now < 2 ^ n → steps.new ≤ steps.old + n }
{
    match find(keys, key, steps) {
        Ok(place) => place,
        Err(place) => place,
    }
}

/// The first of the keys that isn't below this one.
pub fn first_from<'a, K: Ord, L: Ledger>(
    keys: &'a [K],
    key: &K,
    steps: &mut Steps<L>,
) -> Option<&'a K>
    requires { IsStrictlySortedBy K.cmp keys.now }
    ensures none { IfNone result (IsAboveAll K.cmp keys.now key.now) }
    ensures first { IfSome result (λ first. IsFirstFrom K.cmp keys.now key.now first.now) }
    ensures grows { steps.old ≤ steps.new }
    ensures steps { (n : ℕ) → length keys.now < 2 ^ n → steps.new ≤ steps.old + n }
{
    keys.get(beginning(keys, key, steps))
}
