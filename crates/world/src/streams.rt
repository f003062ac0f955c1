//! Streams of bytes, in and out: what is known of their bytes, their calls and their failures.

ghost use Rattle.std.specs.Prelude.{◌≡◌, ◌≤◌, ℕ, Bool, true, Option, List, length, IfOk};
ghost use Rattle.world.specs.Causes.{HasCause, HasDeviceCause};
ghost use Rattle.world.specs.Streams.{Reads, Writes, count_after, taken_after};

use crate::faults::DeviceAnswer;
use net_types::Failed;

/// Where input comes from.
pub trait Source {
    /// How many calls failed.
    ghost faults: { Self → ℕ };

    /// Whether it is told that no call fails from now on.
    ghost never_fails: { Self → Bool };

    /// How many calls were made, counted up to 2^64 - 1.
    ghost reads: { Self → ℕ };

    /// How many bytes were taken, counted up to 2^64 - 1.
    ghost taken: { Self → ℕ };

    /// The bytes left, where these are told.
    ghost left: { Self → Option (List ℕ) };

    /// Puts the next bytes at the front of `buf` and says how many; 0 for a buffer with room is the end of input.
    fn read(&mut self, buf: &mut [u8]) -> Result<usize, Failed>
        ensures cause { HasCause (faults self.old) (faults self.new) result }
        ensures steady { never_fails self.old ≡ true → faults self.new ≡ faults self.old }
        ensures stays { never_fails self.new ≡ never_fails self.old }
        ensures counted { reads self.new ≡ count_after (reads self.old) }
        ensures taken { taken self.new ≡ taken_after (taken self.old) result }
        ensures room { IfOk result (λ n. n ≤ length buf.new) }
        ensures told { Reads (left self.old) (left self.new) buf.new result };
}

/// Where output goes.
pub trait Sink {
    /// How many calls failed.
    ghost faults: { Self → ℕ };

    /// Whether it is told that no call fails from now on.
    ghost never_fails: { Self → Bool };

    /// The bytes written, where these are told.
    ghost written: { Self → Option (List ℕ) };

    /// Appends all the bytes, or on a refusal some of the first of them.
    fn write(&mut self, bytes: &[u8]) -> Result<(), DeviceAnswer>
        ensures cause { HasDeviceCause (faults self.old) (faults self.new) result }
        ensures steady { never_fails self.old ≡ true → faults self.new ≡ faults self.old }
        ensures stays { never_fails self.new ≡ never_fails self.old }
        ensures told { Writes (written self.old) (written self.new) bytes.now result };
}
