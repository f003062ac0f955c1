//! The law that a timed machine, ticked before its due moment or while it waits for none, neither changes nor says
//! anything.

ghost use Rattle.std.specs.Prelude.{◌≡◌, ℕ, false};
ghost use Rattle.machine.specs.Moment.{is_due};

use crate::timed::Machine;

/// Law: a tick before the due moment, or of a machine without one, changes nothing and says nothing. So
/// whoever ticks only what is due does the same as one who ticks everything.
pub fn early_ticks_rest<M: Machine>()
    ensures { (old new : M) (at salt : ℕ) (out : M.Out) → is_due (M.due_of old) at ≡ false
        → M.ticks old at salt new out → (new ≡ old) × M.is_quiet out }
{}
