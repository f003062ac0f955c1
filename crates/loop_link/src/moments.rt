//! The moments that a link tells.

ghost use Rattle.std.specs.Prelude.{◌≡◌, ◌≤◌, ◌/◌, [], ◌∷◌, IfOk, Ok};
ghost use Rattle.std.specs.Time.{instant_nanos, system_time_nanos};
ghost use Rattle.std.specs.Duration.{as_nanos};
ghost use Rattle.system_calls.specs.Asking.{Does};
ghost use Rattle.loop_link.specs.Moments.{moment_at, next_moment};
ghost use Rattle.loop_link.specs.WireCalls.{SteadyRead, ReadsWall, BeginsWith, TellsMoment};

use crate::loopback::Loopback;
use std::time::{Duration, Instant, SystemTime, UNIX_EPOCH};
use world::Failed;

/// A time in whole milliseconds.
fn millis(time: Duration) -> Result<u64, Failed>
    ensures { IfOk result (λ moment. moment ≡ as_nanos time / 1_000_000) }
{
    match u64::try_from(time.as_millis()) {
        Ok(millis) => Ok(millis),
        Err(_) => Err(Failed),
    }
}

/// What has passed since 1970 at a time. None before that can be told.
fn since_1970(time: SystemTime) -> Result<Duration, Failed>
    ensures { IfOk result (λ passed. as_nanos passed ≡ system_time_nanos time) }
{
    match time.duration_since(UNIX_EPOCH) {
        Ok(passed) => Ok(passed),
        Err(_) => Err(Failed),
    }
}

/// The moment of the wall clock, in milliseconds since 1970.
fn wall_moment<L: Loopback>(line: &mut L) -> Result<u64, Failed>
    ensures read { IfOk result (λ moment. ReadsWall moment (L.calls line.old) (L.calls line.new)) }
    ensures link { L.link line.new ≡ L.link line.old }
{
    match line.wall() {
        Ok(now) => millis(since_1970(now)?),
        Err(_) => Err(Failed),
    }
}

/// The clock that nobody sets, and that doesn't go back.
fn steady_now<L: Loopback>(line: &mut L) -> Result<Instant, Failed>
    ensures read { IfOk result
        (λ now. Does (SteadyRead (Ok (instant_nanos now)) ∷ []) (L.calls line.old) (L.calls line.new)) }
    ensures link { L.link line.new ≡ L.link line.old }
{
    match line.steady() {
        Ok(now) => Ok(now),
        Err(_) => Err(Failed),
    }
}

/// The moments of a life. A wall clock that is set later doesn't change them.
#[derive(Clone, Copy)]
pub(crate) struct Moments {
    /// The moment of its beginning, in milliseconds since 1970.
    begun: u64,
    /// What the steady clock read then.
    since: Instant,
    last: u64,
}

impl Moments {
    /// The moments of a life that begins now.
    pub(crate) fn begin<L: Loopback>(line: &mut L) -> Result<Moments, Failed>
        ensures last { IfOk result (λ moments. moments.last ≡ moments.begun) }
        ensures begun { IfOk result
            (λ moments. BeginsWith moments.begun (instant_nanos moments.since) (L.calls line.old)
            (L.calls line.new)) }
        ensures link { L.link line.new ≡ L.link line.old }
    {
        let begun = wall_moment(line)?;
        let since = steady_now(line)?;
        Ok(Moments {
            begun,
            since,
            last: begun,
        })
    }

    pub(crate) fn begun(&self) -> u64
        ensures { result ≡ self.now.begun }
    {
        self.begun
    }

    /// The moment at which the steady clock reads so.
    fn at(&self, now: Instant) -> u64
        ensures { result ≡ moment_at self.now.begun (instant_nanos self.now.since) (instant_nanos now) }
    {
        let passed = now.duration_since(self.since).as_millis();
        match u64::try_from(passed) {
            Ok(passed) => self.begun.saturating_add(passed),
            Err(_) => u64::MAX,
        }
    }

    /// The moment at which the steady clock reads so, or the last one that was told, where that is later.
    fn tell(&mut self, now: Instant) -> u64
        ensures told { result
            ≡ next_moment self.old.last self.old.begun (instant_nanos self.old.since) (instant_nanos now) }
        ensures kept { self.new ≡ record self.old { last = result } }
    {
        self.last = self.last.max(self.at(now));
        self.last
    }

    /// The moment now. None is before one that was told.
    pub(crate) fn now<L: Loopback>(&mut self, line: &mut L) -> Result<u64, Failed>
        ensures never_falls { IfOk result (λ at. self.old.last ≤ at) }
        ensures kept { IfOk result (λ at. self.new ≡ record self.old { last = at }) }
        ensures read { IfOk result
            (λ at. TellsMoment at self.old.last self.old.begun (instant_nanos self.old.since) (L.calls line.old)
            (L.calls line.new)) }
        ensures link { L.link line.new ≡ L.link line.old }
    {
        let now = steady_now(line)?;
        Ok(self.tell(now))
    }
}
