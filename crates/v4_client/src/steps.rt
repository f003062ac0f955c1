//! The steps that the rows of the table are made of.

ghost use Rattle.std.specs.Prelude.{◌≡◌};
ghost use Rattle.net_types.specs.Moments.{IsMoment};
ghost use Rattle.v4_client.specs.Steps as steps;

use crate::moments::{
    Backoff, REFUSED_WAIT, again_at, expiry, first_delay, rebinding_at, secs_since, wait,
};
use crate::saying::{decline, discover, rebinding_request, renewing_request, request};
use crate::states::{Exchange4, Keep4, News4, Origin4, State4, Step4, Turn4};
use arp_acd::Acd;
use lease_text::Terms4;
use machine::draw_xid;
use net_types::Ip4;

/// The client stands so, and nothing is said.
pub(crate) fn goes_to(state: State4, last: Option<u32>) -> Step4
    ensures { result ≡ steps.goes_to state last }
{
    Step4 {
        state,
        last,
        keep: Keep4::Stays,
        say: None,
        arp: None,
        news: News4::Nothing,
        spends: false,
    }
}

pub(crate) fn rests(turn: Turn4, state: State4) -> Step4
    ensures { result ≡ steps.rests turn state }
{
    goes_to(state, turn.last)
}

/// The client is off, and stands on no lease any more.
pub(crate) fn stops(turn: Turn4) -> Step4
    ensures { result ≡ steps.stops turn }
{
    Step4 {
        spends: true,
        ..rests(turn, State4::Off)
    }
}

/// To Init.
pub(crate) fn to_init(turn: Turn4) -> Step4
    requires { IsMoment turn.at }
    ensures { result ≡ steps.to_init turn }
{
    let due = turn.at + first_delay(turn.site, turn.salt);
    rests(turn, State4::Init { due })
}

/// A DISCOVER of the exchange that began at `began`.
pub(crate) fn selecting(turn: Turn4, xid: u32, began: u64, backoff: Backoff) -> Step4
    requires { IsMoment turn.at }
    ensures { result ≡ steps.selecting turn xid began backoff }
{
    let secs = secs_since(began, turn.at);
    let due = turn.at + wait(turn.site, turn.salt, backoff);
    let state = State4::Selecting {
        xid,
        began,
        secs,
        backoff,
        due,
    };
    Step4 {
        say: Some(discover(turn.site, xid, secs)),
        ..goes_to(state, Some(xid))
    }
}

pub(crate) fn new_xid(turn: Turn4) -> u32
    ensures { result ≡ steps.new_xid turn }
{
    draw_xid(turn.salt, turn.site.iface.index, turn.last)
}

/// The DISCOVER of a new exchange.
pub(crate) fn discovers(turn: Turn4) -> Step4
    requires { IsMoment turn.at }
    ensures { result ≡ steps.discovers turn }
{
    selecting(turn, new_xid(turn), turn.at, Backoff::Four)
}

/// A REQUEST for an offered address.
pub(crate) fn requesting(turn: Turn4, exchange: Exchange4, secs: u16, backoff: Backoff) -> Step4
    requires { IsMoment turn.at }
    ensures { result ≡ steps.requesting turn exchange secs backoff }
{
    let due = turn.at + wait(turn.site, turn.salt, backoff);
    let state = State4::Requesting {
        exchange,
        secs,
        backoff,
        due,
    };
    Step4 {
        say: Some(request(turn.site, exchange, secs)),
        ..goes_to(state, Some(exchange.xid))
    }
}

/// A REQUEST for the address of the kept lease, on which the client stands or not.
pub(crate) fn rebooting(
    turn: Turn4,
    exchange: Exchange4,
    backoff: Backoff,
    end: u64,
    stands: Option<Terms4>,
) -> Step4
    requires { IsMoment turn.at }
    ensures { result ≡ steps.rebooting turn exchange backoff end stands }
{
    let due = end.min(turn.at + wait(turn.site, turn.salt, backoff));
    let state = State4::Rebooting {
        exchange,
        backoff,
        end,
        due,
        stands,
    };
    Step4 {
        say: Some(request(turn.site, exchange, 0)),
        ..goes_to(state, Some(exchange.xid))
    }
}

/// A new exchange, which asks for an address from now on.
pub(crate) fn new_exchange(turn: Turn4, address: Ip4) -> Exchange4
    ensures { result ≡ steps.new_exchange turn address }
{
    Exchange4 {
        xid: new_xid(turn),
        address,
        server: None,
        first: turn.at,
    }
}

/// A REQUEST to the server of the lease.
pub(crate) fn renewing(turn: Turn4, exchange: Exchange4, terms: Terms4, acd: Option<Acd>) -> Step4
    requires at { IsMoment turn.at }
    requires first { IsMoment terms.first }
    ensures { result ≡ steps.renewing turn exchange terms acd }
{
    let state = State4::Renewing {
        exchange,
        terms,
        acd,
        due: again_at(rebinding_at(terms), turn.at),
    };
    Step4 {
        say: Some(renewing_request(turn.site, terms, exchange.xid)),
        ..goes_to(state, Some(exchange.xid))
    }
}

/// A REQUEST to any server.
pub(crate) fn rebinding(turn: Turn4, exchange: Exchange4, terms: Terms4, acd: Option<Acd>) -> Step4
    requires at { IsMoment turn.at }
    requires first { IsMoment terms.first }
    ensures { result ≡ steps.rebinding turn exchange terms acd }
{
    let state = State4::Rebinding {
        exchange,
        terms,
        acd,
        due: again_at(expiry(terms), turn.at),
    };
    Step4 {
        say: Some(rebinding_request(turn.site, terms, exchange.xid)),
        ..goes_to(state, Some(exchange.xid))
    }
}

pub(crate) fn bound_news(origin: Origin4) -> News4
    ensures { result ≡ steps.bound_news origin }
{
    match origin {
        Origin4::Offered => News4::Bound,
        Origin4::Rebooted => News4::Reboot,
    }
}

/// The lease is held and kept.
pub(crate) fn binds(turn: Turn4, xid: u32, terms: Terms4, news: News4, acd: Option<Acd>) -> Step4
    ensures { result ≡ steps.binds turn xid terms news acd }
{
    Step4 {
        keep: Keep4::Takes(terms),
        news,
        ..rests(turn, State4::Bound { xid, terms, acd })
    }
}

/// The lease ends.
pub(crate) fn expires(turn: Turn4) -> Step4
    requires { IsMoment turn.at }
    ensures { result ≡ steps.expires turn }
{
    Step4 {
        keep: Keep4::Clears,
        news: News4::Expire,
        ..to_init(turn)
    }
}

/// The news where a client doesn't stand on its kept lease any more.
pub(crate) fn standing_news(stands: Option<Terms4>) -> News4
    ensures { result ≡ steps.standing_news stands }
{
    match stands {
        Some(_) => News4::Expire,
        None => News4::Nothing,
    }
}

/// To Waiting, without a kept lease.
pub(crate) fn to_waiting(turn: Turn4) -> Step4
    requires { IsMoment turn.at }
    ensures { result ≡ steps.to_waiting turn }
{
    let due = turn.at + REFUSED_WAIT;
    Step4 {
        keep: Keep4::Clears,
        ..rests(turn, State4::Waiting { due })
    }
}

/// A server refuses the address.
pub(crate) fn refused(turn: Turn4) -> Step4
    requires { IsMoment turn.at }
    ensures { result ≡ steps.refused turn }
{
    Step4 {
        news: News4::Nak,
        ..to_waiting(turn)
    }
}

/// Another host has the granted address.
pub(crate) fn declines(turn: Turn4, xid: u32, terms: Terms4, news: News4) -> Step4
    requires { IsMoment turn.at }
    ensures { result ≡ steps.declines turn xid terms news }
{
    Step4 {
        say: Some(decline(turn.site, terms, xid)),
        news,
        ..to_waiting(turn)
    }
}

/// Another host contests the held address.
pub(crate) fn gives_up(turn: Turn4, xid: u32, terms: Terms4) -> Step4
    requires { IsMoment turn.at }
    ensures { result ≡ steps.gives_up turn xid terms }
{
    declines(turn, xid, terms, News4::Expire)
}
