//! The state of a life between two turns: how its moments go on, when it is to wake next, and when it is over.

ghost use Rattle.std.specs.Prelude.{◌≡◌, ◌<◌, ◌≤◌, ◌+◌, ◌^◌, max};
ghost use Rattle.client_model.specs.Clients.{earlier};
ghost use Rattle.machine.specs.Moment.{moment_of};
ghost use Rattle.turn_model.specs.Turns.{stop_after, retry_at, end_at, is_past, until, is_over};
ghost use Rattle.daemon.specs.Lives.{life_of, IsBelowEnd, IsTimely, retry_unless};

use client_core::{Core, core_due, earlier_of};
use hook_child::Supervisor;
use life_asks::{Table, hooks_due};
use life_files::KeptFiles;
use world::Event;

/// Moments are below this, in milliseconds since 1970.
const END_OF_TIME: u64 = 1_000_000_000_000_000;

/// After this time an unknown table is looked at again, and an unknown file is tried again.
const RETRY: u64 = 1000;

/// A life goes on for this time after the stop.
const GRACE: u64 = 5000;

/// A life between two turns.
#[derive(Drop)]
pub struct Life {
    pub core: Core,
    /// What is known of the host's table.
    pub table: Table,
    /// The files that it keeps.
    pub files: KeptFiles,
    /// The jobs of hooks that wait, and the child that runs.
    pub hooks: Supervisor,
    /// The moment of the last turn, in milliseconds since 1970.
    pub moment: u64,
    /// The moment of the stop, once it came.
    pub stop: Option<u64>,
    /// Whose frames the link refused in the last turn: their bits are set, from the lowest for interface 1.
    pub unsent: u64,
}

/// A moment as it counts: moments end, and don't go back.
pub fn raised(now: u64, at: u64) -> u64
    requires { now < 10 ^ 15 }
    ensures value { result ≡ max now (moment_of at) }
    ensures below { result < 10 ^ 15 }
{
    now.max(cut(at))
}

/// A moment of at most the end of time.
pub fn cut(at: u64) -> u64
    ensures value { result ≡ moment_of at }
    ensures below { result < 10 ^ 15 }
{
    at.min(END_OF_TIME - 1)
}

/// The first stop counts.
pub fn stop_moment(stop: Option<u64>, event: Event, now: u64) -> Option<u64>
    ensures { result ≡ stop_after stop event now }
{
    match (stop, event) {
        (Some(at), _) => Some(at),
        (None, Event::Stop) => Some(now),
        (None, Event::Frame { .. }) => None,
        (None, Event::Carrier { .. }) => None,
        (None, Event::Duplicate { .. }) => None,
        (None, Event::Release { .. }) => None,
        (None, Event::Rebind { .. }) => None,
        (None, Event::Quiet) => None,
        (None, Event::End) => None,
    }
}

fn retry(is_known: bool, now: u64) -> Option<u64>
    requires { now < 10 ^ 15 }
    ensures { result ≡ retry_unless is_known now }
{
    if is_known { None } else { Some(now + RETRY) }
}

fn last_moment(stop: Option<u64>) -> Option<u64>
    requires { IsBelowEnd stop }
    ensures { result ≡ end_at stop }
{
    match stop {
        None => None,
        Some(at) => Some(at + GRACE),
    }
}

impl Life {
    /// The moment that the next wait is asked for.
    pub fn until(&self) -> Option<u64>
        requires { IsTimely self.now }
        ensures { result ≡ until (life_of self.now) }
    {
        let files = retry(!self.files.any_unknown(), self.moment);
        let files_or_end = earlier_of(files, last_moment(self.stop));
        let hooks_or_later = earlier_of(hooks_due(&self.hooks, self.moment), files_or_end);
        let table = retry(self.table.is_known(), self.moment);
        earlier_of(core_due(&self.core), earlier_of(table, hooks_or_later))
    }

    /// Whether the life is over.
    pub fn is_over(&self) -> bool
        requires { IsTimely self.now }
        ensures { result ≡ is_over (life_of self.now) }
    {
        match last_moment(self.stop) {
            None => false,
            Some(at) => at <= self.moment,
        }
    }
}
