//! When a life is over.
ghost use Rattle.std.specs.Prelude.{◌≡◌};
ghost use Rattle.script_lines.specs.Clocks.{is_over, clock_after, clock_at};

use world::{Event, Wake};

/// For so many milliseconds a life goes on after its stop.
const TIME_AFTER_STOP: u64 = 5000;

/// What a life knows of moments between two turns.
#[derive(Clone, Copy, PartialEq, Eq)]
pub struct Clock {
    /// The moment of the last turn.
    pub now: u64,
    /// The moment of the first stop.
    pub stop: Option<u64>,
}

impl Clock {
    /// The clock of a life that begins at this moment.
    pub fn new(at: u64) -> Clock
        ensures { result ≡ clock_at at }
    {
        Clock {
            now: at,
            stop: None,
        }
    }

    /// Whether the life is over.
    pub fn is_over(self) -> bool
        ensures { result ≡ is_over self }
    {
        match self.stop {
            Some(stop) => self.now.saturating_sub(stop) >= TIME_AFTER_STOP,
            None => false,
        }
    }

    /// After a turn. Moments don't go back.
    pub fn after(self, wake: Wake) -> Clock
        ensures { result ≡ clock_after self wake }
    {
        let now = self.now.max(wake.at);
        let stop = match (self.stop, wake.event) {
            (Some(stop), _) => Some(stop),
            (None, Event::Stop) => Some(now),
            (None, _) => None,
        };
        Clock { now, stop }
    }
}
