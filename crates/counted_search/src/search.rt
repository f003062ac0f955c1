//! A search that halves what is left in each step.
ghost use Rattle.std.specs.Prelude.{◌≡◌, ℕ, ◌+◌, ◌^◌, ◌<◌, ◌≤◌, length};
ghost use Rattle.std.specs.List.Sorted.{IsSearchInRange, IsBinarySearchResult};

use crate::ledger::Ledger;
use crate::steps::Steps;
use std::cmp::Ordering;

/// Where a key stands among keys in ascending order, or else where it can be put in without a change of the order. Each
/// comparison of two keys is counted: there are at most n of them among fewer than 2^n keys.
pub fn find<K: Ord, L: Ledger>(keys: &[K], key: &K, steps: &mut Steps<L>) -> Result<usize, usize>
    ensures within { IsSearchInRange result (length keys.now) }
    ensures place { IsBinarySearchResult (λ other. K.cmp other key.now) keys.now result }
    ensures grows { steps.old ≤ steps.new }
    ensures steps { (n : ℕ) → length keys.now < 2 ^ n → steps.new ≤ steps.old + n }
{
    let mut low = 0;
    let mut high = keys.len();
    'halves: while low < high {
        let middle = low + (high - low) / 2;
        match steps.compare(&keys[middle], key) {
            Ordering::Less => low = middle + 1,
            Ordering::Equal => return Ok(middle),
            Ordering::Greater => high = middle,
        }
    }
    Err(low)
}
