//! The times of an exchange and of a restart, in milliseconds.

ghost use Rattle.std.specs.Prelude.{◌≡◌, ◌≤◌};
ghost use Rattle.v6_client.specs.Times as times;

use crate::turn::Turn6;
use machine::draw;

/// The delay of the first SOLICIT is up to a second: one of so many milliseconds (SOL_MAX_DELAY, RFC 8415, section
/// 18.2.1).
pub const DELAY_SPREAD: u32 = 1001;
/// For so many milliseconds the items of the kept lease are asked for again.
pub const RESTART_TIME: u64 = 10_000;

/// The delay of the first SOLICIT.
pub(crate) fn first_delay(turn: Turn6) -> u64
    ensures value { result ≡ times.first_delay turn }
    ensures most { result ≤ 1001 }
{
    if turn.site.flags.nodelay {
        1
    } else {
        u64::from(draw(turn.salt, turn.site.iface.index, DELAY_SPREAD))
    }
}

/// The hundredths of a second from `began` to `at`, as a message tells them (RFC 8415, section 21.9).
pub(crate) fn elapsed(began: u64, at: u64) -> u16
    ensures { result ≡ times.elapsed began at }
{
    (at.saturating_sub(began) / 10).min(0xffff) as u16
}
