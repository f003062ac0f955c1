//! What a machine that acts at moments of its own promises to the loop that drives it, and the limit of such moments.

ghost use Rattle.std.specs.Prelude.{◌≡◌, ℕ, Option, false};
ghost use Rattle.machine.specs.Moment.{is_due, moment_of};

/// The greatest moment that is handed to a machine.
pub const LAST_MOMENT: u64 = 999_999_999_999_999;

/// The moment that `at` stands for: a greater one counts as `LAST_MOMENT`.
pub fn clamp_moment(at: u64) -> u64
    ensures { result ≡ moment_of at }
{
    at.min(LAST_MOMENT)
}

/// Whether a machine's moment has come: it waits for one, and that isn't above `at`.
pub fn has_come(due: Option<u64>, at: u64) -> bool
    ensures { result ≡ is_due due at }
{
    due.is_some_and(|due| due <= at)
}

/// A machine that acts at moments of its own.
///
/// Before its due moment a tick changes nothing and says nothing, so whoever drives it may leave such
/// ticks out.
pub trait Machine {
    /// What one tick answers.
    type Out;

    // the moment that the machine waits for
    ghost due_of: { Self → Option ℕ };

    // what one tick does: the machine before it, the moment, the salt, the machine after it, its answer
    ghost ticks: { Self → ℕ → ℕ → Self → Self.Out → Type 0 };

    // the answer says nothing
    ghost is_quiet: { Self.Out → Type 0 };

    /// The next moment at which a tick may do something, if there is one.
    fn due(&self) -> Option<u64>
        ensures { result ≡ due_of self.now };

    /// Acts at the moment `at`, with the turn's salt.
    fn tick(&mut self, at: u64, salt: u64) -> Self::Out
        ensures { ticks self.old at salt self.new result };

    // before its due moment a tick changes nothing and says nothing
    ghost rests: { (old new : Self) (at salt : ℕ) (out : Self.Out) → is_due (due_of old) at ≡ false
        → ticks old at salt new out → (new ≡ old) × is_quiet out };
}
