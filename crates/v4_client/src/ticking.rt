//! What a client does when its moment has come.

ghost use Rattle.std.specs.Prelude.{◌≡◌, true, IfSome};
ghost use Rattle.net_types.specs.Moments.{IsMoment};
ghost use Rattle.v4_client.specs.Clients.{is_bound};
ghost use Rattle.v4_client.specs.Due as moments;
ghost use Rattle.v4_client.specs.Sound.{FitsState};
ghost use Rattle.v4_client.specs.Ticks as ticks;

use crate::detection::{checked, defended, with_acd};
use crate::moments::{Backoff, earlier, expiry, rebinding_at, renewal_at, standing_until};
use crate::states::{Exchange4, Keep4, News4, Origin4, State4, Step4, Turn4};
use crate::steps::{
    discovers, expires, new_exchange, rebinding, rebooting, renewing, requesting, rests, selecting,
    standing_news, to_init,
};
use arp_acd::Acd;
use lease_text::Terms4;
use machine::{Machine, has_come};

fn acd_due(acd: Option<Acd>) -> Option<u64>
    ensures { result ≡ moments.acd_due acd }
{
    match acd {
        Some(acd) => acd.due(),
        None => None,
    }
}

/// The moment at which a client acts next.
pub(crate) fn due_of(state: State4) -> Option<u64>
    requires { FitsState state }
    ensures { result ≡ moments.due_of state }
{
    match state {
        State4::Off => None,
        State4::Init { due }
        | State4::Selecting { due, .. }
        | State4::Requesting { due, .. }
        | State4::Waiting { due } => Some(due),
        State4::Rebooting { due, stands, .. } => earlier(Some(due), standing_until(stands)),
        State4::Checking {
            terms,
            acd,
            stands,
            ..
        } => earlier(earlier(acd.due(), expiry(terms)), standing_until(stands)),
        State4::Bound { terms, acd, .. } => earlier(renewal_at(terms), acd_due(acd)),
        State4::Renewing { acd, due, .. } | State4::Rebinding { acd, due, .. } => {
            earlier(Some(due), acd_due(acd))
        }
    }
}

fn is_longest(backoff: Backoff) -> bool
    ensures { result ≡ ticks.is_longest backoff }
{
    match backoff {
        Backoff::Four | Backoff::Eight | Backoff::Sixteen | Backoff::ThirtyTwo => false,
        Backoff::SixtyFour => true,
    }
}

/// What conflict detection of a held address says.
fn detects(turn: Turn4, xid: u32, terms: Terms4, state: State4, acd: Option<Acd>) -> Step4
    requires { IsMoment turn.at }
    ensures { result ≡ ticks.detects turn xid terms state acd }
{
    let Some(mut acd) = acd else {
        return rests(turn, state);
    };
    let says = acd.tick(turn.at, turn.salt);
    defended(turn, xid, terms, with_acd(state, acd), says)
}

fn bound_tick(turn: Turn4, xid: u32, terms: Terms4, acd: Option<Acd>) -> Step4
    requires at { IsMoment turn.at }
    requires first { IsMoment terms.first }
    ensures { result ≡ ticks.bound_tick turn xid terms acd }
{
    // the lease is over
    if has_come(expiry(terms), turn.at) {
        return expires(turn);
    }
    // T2
    if has_come(rebinding_at(terms), turn.at) {
        return rebinding(turn, new_exchange(turn, terms.net.ip), terms, acd);
    }
    // T1
    if has_come(renewal_at(terms), turn.at) {
        return renewing(turn, new_exchange(turn, terms.net.ip), terms, acd);
    }
    detects(turn, xid, terms, State4::Bound { xid, terms, acd }, acd)
}

fn renewing_tick(
    turn: Turn4,
    exchange: Exchange4,
    terms: Terms4,
    acd: Option<Acd>,
    due: u64,
) -> Step4
    requires at { IsMoment turn.at }
    requires first { IsMoment terms.first }
    ensures { result ≡ ticks.renewing_tick turn exchange terms acd due }
{
    // the lease is over
    if has_come(expiry(terms), turn.at) {
        return expires(turn);
    }
    // T2
    if has_come(rebinding_at(terms), turn.at) {
        return rebinding(turn, new_exchange(turn, terms.net.ip), terms, acd);
    }
    // the REQUEST again
    if due <= turn.at {
        return renewing(turn, exchange, terms, acd);
    }
    let state = State4::Renewing {
        exchange,
        terms,
        acd,
        due,
    };
    detects(turn, exchange.xid, terms, state, acd)
}

fn rebinding_tick(
    turn: Turn4,
    exchange: Exchange4,
    terms: Terms4,
    acd: Option<Acd>,
    due: u64,
) -> Step4
    requires at { IsMoment turn.at }
    requires first { IsMoment terms.first }
    ensures { result ≡ ticks.rebinding_tick turn exchange terms acd due }
{
    // the lease is over
    if has_come(expiry(terms), turn.at) {
        return expires(turn);
    }
    // the REQUEST again
    if due <= turn.at {
        return rebinding(turn, exchange, terms, acd);
    }
    let state = State4::Rebinding {
        exchange,
        terms,
        acd,
        due,
    };
    detects(turn, exchange.xid, terms, state, acd)
}

fn requesting_tick(turn: Turn4, exchange: Exchange4, secs: u16, backoff: Backoff) -> Step4
    requires { IsMoment turn.at }
    ensures { result ≡ ticks.requesting_tick turn exchange secs backoff }
{
    // after the longest wait
    if is_longest(backoff) {
        return to_init(turn);
    }
    // the REQUEST again
    requesting(turn, exchange, secs, backoff.doubled())
}

fn rebooting_tick(
    turn: Turn4,
    exchange: Exchange4,
    backoff: Backoff,
    end: u64,
    stands: Option<Terms4>,
) -> Step4
    requires at { IsMoment turn.at }
    requires first { IfSome stands (λ terms. IsMoment terms.first) }
    ensures { result ≡ ticks.rebooting_tick turn exchange backoff end stands }
{
    // the lease is over on which the client stands
    if has_come(standing_until(stands), turn.at) {
        return expires(turn);
    }
    // no answer came
    if end <= turn.at {
        return Step4 {
            news: standing_news(stands),
            ..discovers(turn)
        };
    }
    // the REQUEST again
    rebooting(turn, exchange, backoff.doubled(), end, stands)
}

/// The client doesn't stand on its kept lease any more, which is over, and goes on in the state.
fn falls(turn: Turn4, state: State4) -> Step4
    ensures { result ≡ ticks.falls turn state }
{
    Step4 {
        keep: Keep4::Clears,
        news: News4::Expire,
        ..rests(turn, state)
    }
}

fn checking_tick(
    turn: Turn4,
    xid: u32,
    terms: Terms4,
    origin: Origin4,
    acd: Acd,
    stands: Option<Terms4>,
) -> Step4
    requires at { IsMoment turn.at }
    requires first { IsMoment terms.first }
    requires held { IfSome stands (λ terms. IsMoment terms.first) }
    ensures { result ≡ ticks.checking_tick turn xid terms origin acd stands }
{
    // the lease is over on which the client stands; the check goes on
    if has_come(standing_until(stands), turn.at) {
        let state = State4::Checking {
            xid,
            terms,
            origin,
            acd,
            stands: None,
        };
        return falls(turn, state);
    }
    // the lease is over before it is held
    if has_come(expiry(terms), turn.at) {
        return Step4 {
            news: standing_news(stands),
            ..to_init(turn)
        };
    }
    let mut acd = acd;
    let says = acd.tick(turn.at, turn.salt);
    checked(turn, xid, terms, origin, acd, stands, says)
}

/// A tick of a state in which the client is bound to a lease.
fn bound_to_tick(turn: Turn4, state: State4) -> Step4
    requires at { IsMoment turn.at }
    requires fits { FitsState state }
    ensures { is_bound state ≡ true → result ≡ ticks.tick_row turn state }
{
    match state {
        State4::Bound { xid, terms, acd } => bound_tick(turn, xid, terms, acd),
        State4::Renewing {
            exchange,
            terms,
            acd,
            due,
        } => renewing_tick(turn, exchange, terms, acd, due),
        State4::Rebinding {
            exchange,
            terms,
            acd,
            due,
        } => rebinding_tick(turn, exchange, terms, acd, due),
        State4::Off
        | State4::Init { .. }
        | State4::Selecting { .. }
        | State4::Requesting { .. }
        | State4::Rebooting { .. }
        | State4::Checking { .. }
        | State4::Waiting { .. } => rests(turn, state),
    }
}

/// A tick of a state whose moment has come.
pub(crate) fn tick_row(turn: Turn4, state: State4) -> Step4
    requires at { IsMoment turn.at }
    requires fits { FitsState state }
    ensures { result ≡ ticks.tick_row turn state }
{
    match state {
        State4::Off => rests(turn, State4::Off),
        // a new xid; DISCOVER
        State4::Init { .. } | State4::Waiting { .. } => discovers(turn),
        // DISCOVER again
        State4::Selecting {
            xid,
            began,
            backoff,
            ..
        } => selecting(turn, xid, began, backoff.doubled()),
        // REQUEST again; after the longest wait Init
        State4::Requesting {
            exchange,
            secs,
            backoff,
            ..
        } => requesting_tick(turn, exchange, secs, backoff),
        // the end of the kept lease; REQUEST again; at the end of that a new xid and DISCOVER
        State4::Rebooting {
            exchange,
            backoff,
            end,
            stands,
            ..
        } => rebooting_tick(turn, exchange, backoff, end, stands),
        // the end of the kept lease; the address is probed
        State4::Checking {
            xid,
            terms,
            origin,
            acd,
            stands,
        } => checking_tick(turn, xid, terms, origin, acd, stands),
        // a lease is bound
        State4::Bound { .. } | State4::Renewing { .. } | State4::Rebinding { .. } => {
            bound_to_tick(turn, state)
        }
    }
}
