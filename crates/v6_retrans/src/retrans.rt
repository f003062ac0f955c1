//! The retransmission of an unanswered DHCPv6 message: the time until the next, and the count at which it fails.

ghost use Rattle.std.specs.Prelude.{◌≡◌, ◌≤◌, ◌<◌, ◌^◌};
ghost use Rattle.v6_retrans.specs.Retransmission as times;

use crate::parameters::Parameters;

/// A message that was said and awaits its answer.
#[derive(Clone, Copy, PartialEq, Eq)]
pub struct Retrans {
    /// RT: the time until the message is said again.
    pub rt: u64,
    /// How often it was said.
    pub sent: u32,
    pub parameters: Parameters,
}

impl Retrans {
    /// The message is said for the first time.
    pub fn first(parameters: Parameters, rand: u32) -> Retrans
        requires rand { rand ≤ 200 }
        requires day { parameters.irt ≤ 86400000 }
        ensures { result ≡ times.first_said parameters rand }
    {
        Retrans {
            rt: spread(parameters.irt, rand),
            sent: 1,
            parameters,
        }
    }

    /// The message is said again. The count of its sayings stays at the greatest number that it can be.
    pub fn next(&mut self, rand: u32)
        requires rand { rand ≤ 200 }
        requires day { self.old.parameters.mrt ≤ 86400000 }
        requires time { self.old.rt < 2 ^ 52 }
        ensures { self.new ≡ times.said_again self.old rand }
    {
        self.rt = bounded(self.parameters.mrt, rand, doubled(self.rt, rand));
        self.sent = self.sent.saturating_add(1);
    }

    /// Whether the exchange fails when its time ends, since the message was said as often as it may be.
    pub fn is_over(&self) -> bool
        ensures { result ≡ times.is_over self.now }
    {
        self.parameters.mrc > 0 && self.sent >= self.parameters.mrc
    }
}

/// A time and RAND times it.
fn spread(time: u64, rand: u32) -> u64
    requires rand { rand ≤ 200 }
    requires day { time ≤ 86400000 }
    ensures { result ≡ times.spread time rand }
{
    time * (900 + u64::from(rand)) / 1000
}

/// Twice the time before and RAND times it.
fn doubled(rt: u64, rand: u32) -> u64
    requires rand { rand ≤ 200 }
    requires time { rt < 2 ^ 52 }
    ensures { result ≡ times.doubled rt rand }
{
    rt * (1900 + u64::from(rand)) / 1000
}

/// A time below its upper bound, where there is one.
fn bounded(mrt: u64, rand: u32, rt: u64) -> u64
    requires rand { rand ≤ 200 }
    requires day { mrt ≤ 86400000 }
    ensures { result ≡ times.bounded mrt rand rt }
{
    if mrt > 0 && rt > mrt {
        spread(mrt, rand)
    } else {
        rt
    }
}
