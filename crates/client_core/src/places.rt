//! Sets of places of interfaces as the bits of one word, which are walked from one place to the next.

ghost use Rattle.std.specs.Prelude.{◌≡◌, ◌==◌, ◌||◌, ℕ, ◌<◌, ◌≤◌, true, false};
ghost use Rattle.client_core.specs.Places.{has, no_places};

/// How many places sets tell apart.
pub const PLACES: usize = 64;

/// A set of places of interfaces: bit `p` is place `p`. Those from 64 on are in every set.
#[derive(Clone, Copy, PartialEq, Eq)]
pub struct Places {
    pub bits: u64,
}

impl Places {
    /// None of the places below 64.
    pub fn none() -> Places
        ensures is { result ≡ no_places }
        ensures none { (place : ℕ) → place < 64 → has result place ≡ false }
    {
        Places { bits: 0 }
    }

    /// All places.
    pub fn all() -> Places
        ensures { (place : ℕ) → has result place ≡ true }
    {
        Places { bits: u64::MAX }
    }

    /// These, and one more.
    pub fn with(self, place: usize) -> Places
        ensures { (other : ℕ) → has result other ≡ (other == place || has self other) }
    {
        if place >= PLACES {
            return self;
        }
        Places {
            bits: self.bits | (1 << place),
        }
    }

    /// These and those.
    pub fn or(self, those: Places) -> Places
        ensures { (place : ℕ) → has result place ≡ (has self place || has those place) }
    {
        Places {
            bits: self.bits | those.bits,
        }
    }

    /// The first of them from `from` on and below `end`; `end` where there is none.
    pub fn next_from(self, from: usize, end: usize) -> usize
        requires { from ≤ end }
        ensures from { from ≤ result }
        ensures end { result ≤ end }
        ensures found { result < end → has self result ≡ true }
        ensures skips { (place : ℕ) → from ≤ place → place < result → has self place ≡ false }
    {
        next_bit(self.bits, from, end)
    }
}

/// The first place from `from` on and below `end` that a set of these bits has; `end` where there is none.
fn next_bit(bits: u64, from: usize, end: usize) -> usize
    requires { from ≤ end }
    ensures from { from ≤ result }
    ensures end { result ≤ end }
    ensures found { result < end → has (record { bits = bits }) result ≡ true }
    ensures skips { (place : ℕ) → from ≤ place → place < result → has (record { bits = bits }) place ≡ false }
{
    if from >= PLACES {
        return from;
    }
    let rest = bits >> from;
    if rest == 0 {
        return PLACES.min(end);
    }
    end.min(from + rest.trailing_zeros() as usize)
}
