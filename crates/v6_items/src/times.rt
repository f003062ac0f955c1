//! Lifetimes and moments of items, in milliseconds.

ghost use Rattle.std.specs.Prelude.{◌≡◌};
ghost use Rattle.net_types.specs.Moments.{IsMoment};
ghost use Rattle.v6_items.specs.Times as times;

/// The milliseconds of a second.
pub const SECOND: u64 = 1000;
/// A lifetime of so many seconds never ends (RFC 8415, section 7.7).
pub const FOREVER: u32 = 0xffff_ffff;
/// The least time until items are renewed or rebound.
pub const LEAST_TIME: u64 = 10_000;
/// Of a second of the shortest preferred lifetime: when items are renewed where the server leaves it to the client, and
/// when they are rebound (RFC 8415, section 14.2).
pub const T1_PART: u64 = 500;

/// The part for rebinding, beside `T1_PART`.
pub const T2_PART: u64 = 800;

/// The earlier of two moments, where there are both.
pub fn earlier(first: Option<u64>, second: Option<u64>) -> Option<u64>
    ensures { result ≡ times.earlier first second }
{
    match (first, second) {
        (Some(first), Some(second)) => Some(first.min(second)),
        (Some(first), None) => Some(first),
        (None, second) => second,
    }
}

/// The moment so many seconds after `at`; None is never.
pub(crate) fn moment_after(at: u64, seconds: u32) -> Option<u64>
    requires { IsMoment at }
    ensures { result ≡ times.moment_after at seconds }
{
    if seconds == FOREVER {
        None
    } else {
        Some(at + SECOND * u64::from(seconds))
    }
}
