//! Two lists of keys in order, gone through at once.
ghost use Rattle.std.specs.Prelude.{◌≡◌, ℕ, ◌+◌, ◌≤◌, not, length, drop, filter, IfOk};
ghost use Rattle.std.specs.BTreeMap.Range.{IsLeBy};
ghost use Rattle.std.specs.List.Sorted.{IsStrictlySortedBy};
ghost use Rattle.std.specs.Vec.{vec_capacity};
ghost use Rattle.counted_search.specs.Ordered.{has_key};

use crate::ledger::Ledger;
use crate::steps::Steps;
use std::alloc::{AllocError, Global};
use std::cmp::Ordering;

/// Whether a key is among those from a place on. The place goes past those that are below it.
fn is_among<K: Ord, L: Ledger>(keys: &[K], place: &mut usize, key: &K, steps: &mut Steps<L>) -> bool
    requires ordered { IsStrictlySortedBy K.cmp keys.now }
    requires within { place.old ≤ length keys.now }
    ensures answer { result ≡ has_key K.cmp (drop place.old keys.now) key.now }
    ensures passed { (q : K) → IsLeBy K.cmp key.now q
        → has_key K.cmp (drop place.old keys.now) q ≡ has_key K.cmp (drop place.new keys.now) q }
    ensures within { place.new ≤ length keys.now }
    ensures grows { steps.old ≤ steps.new }
    ensures steps { steps.new + place.old ≤ steps.old + place.new + 1 }
{
    'below: while *place < keys.len() {
        match steps.compare(&keys[*place], key) {
            Ordering::Less => *place += 1,
            Ordering::Equal => return true,
            Ordering::Greater => return false,
        }
    }
    false
}

/// Fills a vector that has room for all keys with those that others lack, in order: that takes no memory. It takes a
/// step for each key of either list at most.
pub fn beyond_into<K: Ord + Copy, L: Ledger>(
    keys: &[K],
    others: &[K],
    found: &mut Vec<K>,
    steps: &mut Steps<L>,
)
    requires keys { IsStrictlySortedBy K.cmp keys.now }
    requires others { IsStrictlySortedBy K.cmp others.now }
    requires room { length keys.now ≤ vec_capacity found.old }
    ensures found { found.new.items ≡ filter (λ key. not (has_key K.cmp others.now key)) keys.now }
    ensures grows { steps.old ≤ steps.new }
    ensures steps { steps.new ≤ steps.old + length keys.now + length others.now }
{
    found.clear();
    let mut place = 0;
    'lacked: for key in keys {
        if is_among(others, &mut place, key, steps) {
            continue;
        }
        // There is room, so this can't fail.
        let _ = found.push(*key);
    }
}

/// The keys that others lack, in order. It takes a step for each key of either list at most.
pub fn beyond<K: Ord + Copy, L: Ledger>(
    alloc: Global,
    keys: &[K],
    others: &[K],
    steps: &mut Steps<L>,
) -> Result<Vec<K>, AllocError>
    requires keys { IsStrictlySortedBy K.cmp keys.now }
    requires others { IsStrictlySortedBy K.cmp others.now }
    ensures found { IfOk result (λ found. found.items ≡ filter (λ key. not (has_key K.cmp others.now key)) keys.now) }
    ensures grows { steps.old ≤ steps.new }
    ensures steps { steps.new ≤ steps.old + length keys.now + length others.now }
{
    let mut found = Vec::with_capacity(alloc, keys.len())?;
    beyond_into(keys, others, &mut found, steps);
    Ok(found)
}
