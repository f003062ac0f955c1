//! Where comparisons are counted, and by whom.
ghost use Rattle.std.specs.Prelude.{◌≡◌, ℕ, ◌+◌, ◌≤◌, min};

/// Where steps are counted.
pub trait Ledger {
    // how many steps it has
    ghost count: { Self → ℕ };

    /// One step more.
    fn tick(&mut self)
        ensures grows { count self.old ≤ count self.new }
        ensures one { count self.new ≤ count self.old + 1 };
}

/// A ledger for callers that don't look at the count: it has no number, and takes no bytes.
#[derive(Drop)]
pub struct Plain;

impl Ledger for Plain {
    ghost count = { λ _. 0 };

    fn tick(&mut self) {}
}

/// A ledger that has the number of steps. It stays at 2^64 - 1 once it is there.
#[derive(Drop)]
pub struct Counted {
    pub steps: u64,
}

impl Ledger for Counted {
    ghost count = { λ counted. counted.steps };

    fn tick(&mut self)
        ensures counted { self.new.steps ≡ min (self.old.steps + 1) u64.MAX }
        ensures grows { self.old.steps ≤ self.new.steps }
        ensures one { self.new.steps ≤ self.old.steps + 1 }
    {
        self.steps = self.steps.saturating_add(1);
    }
}
