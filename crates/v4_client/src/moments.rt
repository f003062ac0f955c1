//! When a client acts. Moments are in milliseconds since 1970.

ghost use Rattle.std.specs.Prelude.{◌≡◌, ◌≤◌, IfSome};
ghost use Rattle.net_types.specs.Moments.{IsMoment};
ghost use Rattle.v4_client.specs.Moments.{again_at, doubled, earlier, expiry, first_delay, moment_in, rebinding_at, renewal_at, seconds, secs_since, standing_until, wait};

use crate::setup::Site4;
use lease_text::{INFINITE_LEASE, Terms4};
use machine::draw;

/// The milliseconds of a second.
pub const SECOND: u64 = 1000;
/// A wait for an answer is up to a second shorter or longer: one of so many milliseconds (RFC 2131, section 4.1).
pub const WAIT_SPREAD: u32 = 2001;
/// The least delay of the first DISCOVER, in milliseconds (RFC 2131, section 4.4.1).
pub const LEAST_DELAY: u64 = 1000;
/// It is up to nine seconds longer: one of so many milliseconds (RFC 2131, section 4.4.1).
pub const DELAY_SPREAD: u32 = 9001;
/// After a DECLINE or a NAK the client waits so many milliseconds (RFC 2131, section 3.1).
pub const REFUSED_WAIT: u64 = 10_000;
/// A REQUEST that renews is said again after half of the time that is left, and not within so many milliseconds
/// (RFC 2131, section 4.4.5).
pub const LEAST_RENEWAL_WAIT: u64 = 60_000;
/// The greatest number of seconds that a message tells (RFC 2131, section 2).
pub const SECS_LIMIT: u64 = 0xffff;

/// How long an answer is waited for: it doubles each time that a message is said again, up to a minute and more
/// (RFC 2131, section 4.1).
#[derive(Clone, Copy, PartialEq, Eq)]
pub enum Backoff {
    Four,
    Eight,
    Sixteen,
    ThirtyTwo,
    SixtyFour,
}

impl Backoff {
    fn seconds(self) -> u64
        ensures value { result ≡ seconds self }
        ensures least { 1 ≤ result }
        ensures most { result ≤ 64 }
    {
        match self {
            Backoff::Four => 4,
            Backoff::Eight => 8,
            Backoff::Sixteen => 16,
            Backoff::ThirtyTwo => 32,
            Backoff::SixtyFour => 64,
        }
    }

    /// Twice the wait; the longest one stays.
    pub(crate) fn doubled(self) -> Backoff
        ensures { result ≡ doubled self }
    {
        match self {
            Backoff::Four => Backoff::Eight,
            Backoff::Eight => Backoff::Sixteen,
            Backoff::Sixteen => Backoff::ThirtyTwo,
            Backoff::ThirtyTwo => Backoff::SixtyFour,
            Backoff::SixtyFour => Backoff::SixtyFour,
        }
    }
}

/// The wait for an answer, in milliseconds.
pub(crate) fn wait(site: Site4, salt: u64, backoff: Backoff) -> u64
    ensures value { result ≡ wait site salt backoff }
    ensures most { result ≤ 65000 }
{
    SECOND * (backoff.seconds() - 1) + u64::from(draw(salt, site.iface.index, WAIT_SPREAD))
}

/// The delay of the first DISCOVER, in milliseconds.
pub(crate) fn first_delay(site: Site4, salt: u64) -> u64
    ensures value { result ≡ first_delay site salt }
    ensures most { result ≤ 10000 }
{
    if site.flags.nodelay {
        1
    } else {
        LEAST_DELAY + u64::from(draw(salt, site.iface.index, DELAY_SPREAD))
    }
}

/// The whole seconds from `began` to `at`, as a message tells them.
pub(crate) fn secs_since(began: u64, at: u64) -> u16
    ensures { result ≡ secs_since began at }
{
    (at.saturating_sub(began) / SECOND).min(SECS_LIMIT) as u16
}

/// The moment so many seconds after the first REQUEST of a lease, and none in a lease that never ends.
fn moment_in(terms: Terms4, seconds: u32) -> Option<u64>
    requires { IsMoment terms.first }
    ensures { result ≡ moment_in terms seconds }
{
    if terms.lease == INFINITE_LEASE {
        None
    } else {
        Some(terms.first + SECOND * u64::from(seconds))
    }
}

/// When a lease ends.
pub(crate) fn expiry(terms: Terms4) -> Option<u64>
    requires { IsMoment terms.first }
    ensures { result ≡ expiry terms }
{
    moment_in(terms, terms.lease)
}

/// When a lease is renewed (T1).
pub(crate) fn renewal_at(terms: Terms4) -> Option<u64>
    requires { IsMoment terms.first }
    ensures { result ≡ renewal_at terms }
{
    moment_in(terms, terms.t1)
}

/// When a lease is rebound (T2).
pub(crate) fn rebinding_at(terms: Terms4) -> Option<u64>
    requires { IsMoment terms.first }
    ensures { result ≡ rebinding_at terms }
{
    moment_in(terms, terms.t2)
}

/// When the kept lease ends on which a client stands.
pub(crate) fn standing_until(stands: Option<Terms4>) -> Option<u64>
    requires { IfSome stands (λ terms. IsMoment terms.first) }
    ensures { result ≡ standing_until stands }
{
    match stands {
        Some(terms) => expiry(terms),
        None => None,
    }
}

/// When a REQUEST that renews is said again, where that has time until `end`.
pub(crate) fn again_at(end: Option<u64>, at: u64) -> u64
    requires { IsMoment at }
    ensures { result ≡ again_at end at }
{
    match end {
        Some(end) => {
            let half = end.saturating_sub(at) / 2;
            end.min(at + half.max(LEAST_RENEWAL_WAIT))
        }
        None => at + LEAST_RENEWAL_WAIT,
    }
}

/// The earlier of two moments, where there are both.
pub(crate) fn earlier(first: Option<u64>, second: Option<u64>) -> Option<u64>
    ensures { result ≡ earlier first second }
{
    match (first, second) {
        (Some(first), Some(second)) => Some(first.min(second)),
        (Some(first), None) => Some(first),
        (None, second) => second,
    }
}
