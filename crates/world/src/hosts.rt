//! The device that holds the host's addresses and routes: how they are read and changed, and what is known of that.

ghost use Rattle.std.specs.Prelude.{◌≡◌, ℕ, Option, List};
ghost use Rattle.world.specs.Causes.{HasDeviceCause, Foretold};
ghost use Rattle.world.specs.HostCalls.{HostTold, host_number, Lists, Adds, Removes};
ghost use Rattle.world.specs.Rows.{IsRow};

use crate::faults::DeviceAnswer;
use crate::rows::HostRow;

/// The host's tables of addresses and routes.
pub trait Host {
    /// How many calls failed.
    ghost faults: { Self → ℕ };

    /// The rows held and the calls so far, where these are told.
    ghost told: { Self → Option HostTold };

    /// The numbers of the calls that fail, from 1 over all lives, where these are told.
    ghost failing: { Self → Option (List ℕ) };

    /// Appends the rows of the host. Each comes once; their order is free.
    fn list(&mut self, rows: &mut Vec<HostRow>) -> Result<(), DeviceAnswer>
        ensures cause { HasDeviceCause (faults self.old) (faults self.new) result }
        ensures told { Lists (told self.old) (told self.new) rows.old.items rows.new.items result }
        ensures foretold { Foretold (failing self.old) (host_number (told self.old)) result }
        ensures failing { failing self.new ≡ failing self.old };

    /// Adds a row; one that is there stays.
    fn add(&mut self, row: &HostRow) -> Result<(), DeviceAnswer>
        requires { IsRow row.now }
        ensures cause { HasDeviceCause (faults self.old) (faults self.new) result }
        ensures told { Adds (failing self.old) row.now (told self.old) (told self.new) result }
        ensures foretold { Foretold (failing self.old) (host_number (told self.old)) result }
        ensures failing { failing self.new ≡ failing self.old };

    /// Removes a row, where it is there.
    fn remove(&mut self, row: &HostRow) -> Result<(), DeviceAnswer>
        ensures cause { HasDeviceCause (faults self.old) (faults self.new) result }
        ensures told { Removes (failing self.old) row.now (told self.old) (told self.new) result }
        ensures foretold { Foretold (failing self.old) (host_number (told self.old)) result }
        ensures failing { failing self.new ≡ failing self.old };
}
