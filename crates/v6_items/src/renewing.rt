//! When items are renewed and rebound, as a Reply tells it.

ghost use Rattle.std.specs.Prelude.{◌≡◌, ◌+◌, ◌<◌, ◌^◌, unwrap_or, IfSome};
ghost use Rattle.std.specs.Option.{option_map};
ghost use Rattle.net_types.specs.Moments.{IsMoment};
ghost use Rattle.v6_options.specs.IaViews.{ia_shown};
ghost use Rattle.v6_items.specs.Renewing as renewing;
ghost use Rattle.v6_items.specs.Renewing.{AreShort};
ghost use Rattle.v6_items.specs.Times as times;

use crate::times::{FOREVER, LEAST_TIME, SECOND, T1_PART, T2_PART, earlier};
use v6_options::IaView;

/// The times until items are renewed and rebound, in milliseconds; None is never.
#[derive(Clone, Copy, PartialEq, Eq)]
pub struct Spans6 {
    pub t1: Option<u64>,
    pub t2: Option<u64>,
}

/// The milliseconds that an IA tells, or a part of the shortest preferred lifetime where it leaves that to the client.
fn span(said: u32, shortest: u32, part: u64) -> Option<u64>
    requires { part < 1000 }
    ensures value { result ≡ renewing.span said shortest part }
    ensures short { unwrap_or result 0 < 10 ^ 13 }
{
    if said == 0 {
        if shortest == FOREVER {
            return None;
        }
        return Some(part * u64::from(shortest));
    }
    if said == FOREVER {
        return None;
    }
    Some(SECOND * u64::from(said))
}

/// The times that an IA tells, where it brought items.
pub(crate) fn spans_of(ia: Option<IaView>, shortest: Option<u32>) -> Option<Spans6>
    ensures value { result ≡ renewing.spans_of (option_map ia_shown ia.entry) shortest }
    ensures short { IfSome result AreShort }
{
    let Some(ia) = ia else {
        return None;
    };
    let Some(shortest) = shortest else {
        return None;
    };
    Some(Spans6 {
        t1: span(ia.t1, shortest, T1_PART),
        t2: span(ia.t2, shortest, T2_PART),
    })
}

fn earlier_span(one: Option<u64>, other: Option<u64>) -> Option<u64>
    requires one { unwrap_or one 0 < 10 ^ 13 }
    requires other { unwrap_or other 0 < 10 ^ 13 }
    ensures value { result ≡ times.earlier one other }
    ensures short { unwrap_or result 0 < 10 ^ 13 }
{
    earlier(one, other)
}

/// The least times of both.
pub(crate) fn joined(one: Option<Spans6>, other: Option<Spans6>) -> Option<Spans6>
    requires one { IfSome one AreShort }
    requires other { IfSome other AreShort }
    ensures value { result ≡ renewing.joined one other }
    ensures short { IfSome result AreShort }
{
    let Some(one) = one else {
        return other;
    };
    let Some(other) = other else {
        return Some(one);
    };
    Some(Spans6 {
        t1: earlier_span(one.t1, other.t1),
        t2: earlier_span(one.t2, other.t2),
    })
}

/// A time that isn't too short.
fn raised(span: Option<u64>) -> Option<u64>
    requires { unwrap_or span 0 < 10 ^ 13 }
    ensures value { result ≡ renewing.raised span }
    ensures short { unwrap_or result 0 < 10 ^ 13 }
{
    match span {
        Some(time) => Some(time.max(LEAST_TIME)),
        None => None,
    }
}

fn after(at: u64, span: Option<u64>) -> Option<u64>
    requires at { IsMoment at }
    requires span { unwrap_or span 0 < 10 ^ 13 }
    ensures { result ≡ option_map (λ time. at + time) span }
{
    match span {
        Some(time) => Some(at + time),
        None => None,
    }
}

/// T1, counted from `at`, which isn't after T2.
pub(crate) fn t1_from(at: u64, spans: Spans6) -> Option<u64>
    requires at { IsMoment at }
    requires short { AreShort spans }
    ensures { result ≡ renewing.t1_from at spans }
{
    after(at, earlier_span(raised(spans.t1), raised(spans.t2)))
}

/// T2, counted from `at`.
pub(crate) fn t2_from(at: u64, spans: Spans6) -> Option<u64>
    requires at { IsMoment at }
    requires short { AreShort spans }
    ensures { result ≡ renewing.t2_from at spans }
{
    after(at, raised(spans.t2))
}
