//! The device by which frames come in and go out, time passes, and carrier changes and signals reach the daemon.

ghost use Rattle.std.specs.Prelude.{◌≡◌, ◌≤◌, ℕ, Option, List, length, IfOk, IfSome, IsOk};
ghost use Rattle.world.specs.Causes.{HasCause, HasDeviceCause, Foretold};
ghost use Rattle.world.specs.LinkCalls.{LinkTold, LinkCall, frame_len, Begins, Waits, Offers, AddsWait, AddsOffer, wait_number, send_number};
ghost use Rattle.world.specs.Streams.{count_after};

use crate::faults::DeviceAnswer;
use crate::wakes::{Begin, Wake};
use net_types::{Failed, IfIndex};

/// The network interfaces, the clock and the signals of the daemon.
pub trait Link {
    /// How many calls of `begin` and `wait` failed.
    ghost faults: { Self → ℕ };

    /// How many sends failed.
    ghost send_faults: { Self → ℕ };

    /// How often a life was to begin, counted up to 2^64 - 1.
    ghost begins: { Self → ℕ };

    /// What was asked, given and offered, and what will come, where that is told.
    ghost told: { Self → Option LinkTold };

    /// The waits and sends answered so far, where these are told, even if what will come isn't.
    ghost calls: { Self → Option (List LinkCall) };

    /// The numbers of the waits that fail, from 1, where these are told.
    ghost failing_waits: { Self → Option (List ℕ) };

    /// The numbers of the sends that fail, from 1 over all lives, where these are told.
    ghost failing_sends: { Self → Option (List ℕ) };

    /// Begins a life.
    fn begin(&mut self) -> Result<Begin, Failed>
        ensures cause { HasCause (faults self.old) (faults self.new) result }
        ensures no_send { send_faults self.new ≡ send_faults self.old }
        ensures counted { begins self.new ≡ count_after (begins self.old) }
        ensures told { Begins (told self.old) (told self.new) result }
        ensures calls { calls self.new ≡ calls self.old }
        // Where it is told which waits fail, beginning doesn't.
        ensures begun { IfSome (failing_waits self.old) (λ _. IsOk result) }
        ensures failing { (failing_waits self.new ≡ failing_waits self.old)
            × (failing_sends self.new ≡ failing_sends self.old) };

    /// Waits until the moment `until` at the latest, in milliseconds since 1970; `None` waits as long as it takes.
    /// A frame is in the first bytes of `buf`.
    fn wait(&mut self, until: Option<u64>, buf: &mut [u8]) -> Result<Wake, DeviceAnswer>
        ensures cause { HasDeviceCause (faults self.old) (faults self.new) result }
        ensures no_send { send_faults self.new ≡ send_faults self.old }
        ensures no_begin { begins self.new ≡ begins self.old }
        ensures room { IfOk result (λ wake. frame_len wake.event ≤ length buf.new) }
        ensures told { Waits until (told self.old) (told self.new) buf.new result }
        ensures calls { AddsWait until (calls self.old) (calls self.new) buf.new result }
        ensures foretold { Foretold (failing_waits self.old) (wait_number (told self.old)) result }
        ensures failing { (failing_waits self.new ≡ failing_waits self.old)
            × (failing_sends self.new ≡ failing_sends self.old) };

    /// Offers a frame on an interface.
    fn send(&mut self, iface: IfIndex, frame: &[u8]) -> Result<(), DeviceAnswer>
        ensures cause { HasDeviceCause (send_faults self.old) (send_faults self.new) result }
        ensures no_wait { (faults self.new ≡ faults self.old) × (begins self.new ≡ begins self.old) }
        ensures told { Offers iface.number frame.now (told self.old) (told self.new) result }
        ensures calls { AddsOffer iface.number frame.now (calls self.old) (calls self.new) result }
        ensures foretold { Foretold (failing_sends self.old) (send_number (told self.old)) result }
        ensures failing { (failing_waits self.new ≡ failing_waits self.old)
            × (failing_sends self.new ≡ failing_sends self.old) };
}
