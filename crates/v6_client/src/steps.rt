//! The steps that the rows of the table are made of.

ghost use Rattle.std.specs.Prelude.{◌≡◌, ◌≤◌};
ghost use Rattle.v6_client.specs.Exchanges as exchanges;
ghost use Rattle.v6_client.specs.Steps as steps;
ghost use Rattle.v6_client.specs.Times.{FitsTurn};

use crate::exchange::{Exchange6, begun, solicit_parameters};
use crate::states::{Keep6, News6, Say6, State6, Step6};
use crate::times::{RESTART_TIME, elapsed, first_delay};
use crate::turn::Turn6;
use v6_items::Parting6;
use v6_message::Kind6;
use v6_retrans::parameters::{DECLINE, REBIND, RENEW, REQUEST};
use v6_retrans::{Parameters, draw_positive_rand, draw_rand};

// ---- where a client goes, and what it says on the way

/// The client stands so, and nothing is said.
pub(crate) fn goes_to(state: State6, last: Option<u32>) -> Step6
    ensures { result ≡ steps.goes_to state last }
{
    Step6 {
        state,
        last,
        keep: Keep6::Stays,
        say: None,
        news: News6::Nothing,
        spends: false,
    }
}

pub(crate) fn rests(turn: Turn6, state: State6) -> Step6
    ensures { result ≡ steps.rests turn state }
{
    goes_to(state, turn.last)
}

/// The message of an exchange is said.
fn speaks(turn: Turn6, kind: Kind6, exchange: Exchange6, state: State6) -> Step6
    ensures { result ≡ steps.speaks turn kind exchange state }
{
    Step6 {
        say: Some(Say6 {
            kind,
            xid: exchange.xid,
            elapsed: elapsed(exchange.began, turn.at),
        }),
        ..goes_to(state, Some(exchange.xid))
    }
}

/// The first SOLICIT waits for the delay.
pub(crate) fn to_waiting(turn: Turn6) -> Step6
    requires { FitsTurn turn }
    ensures { result ≡ steps.to_waiting turn }
{
    let due = turn.at + first_delay(turn);
    rests(turn, State6::Waiting { due })
}

/// A SOLICIT of this exchange.
pub(crate) fn soliciting(turn: Turn6, exchange: Exchange6) -> Step6
    ensures { result ≡ steps.soliciting turn exchange }
{
    let state = State6::Soliciting {
        exchange,
        offer: None,
    };
    speaks(turn, Kind6::Solicit, exchange, state)
}

/// The first SOLICIT.
pub(crate) fn solicits(turn: Turn6) -> Step6
    requires { FitsTurn turn }
    ensures { result ≡ steps.solicits turn }
{
    let rand = draw_positive_rand(turn.salt, turn.site.iface.index);
    soliciting(turn, begun(turn, solicit_parameters(turn), rand))
}

/// A new exchange of a message other than SOLICIT.
fn new_exchange(turn: Turn6, parameters: Parameters) -> Exchange6
    requires turn { FitsTurn turn }
    requires day { parameters.irt ≤ 86400000 }
    ensures { result ≡ exchanges.begun turn parameters (exchanges.rand_in turn) }
{
    begun(
        turn,
        parameters,
        draw_rand(turn.salt, turn.site.iface.index),
    )
}

/// A REQUEST of this exchange.
pub(crate) fn requesting(turn: Turn6, exchange: Exchange6) -> Step6
    ensures { result ≡ steps.requesting turn exchange }
{
    speaks(
        turn,
        Kind6::Request,
        exchange,
        State6::Requesting { exchange },
    )
}

/// The first REQUEST.
pub(crate) fn requests(turn: Turn6) -> Step6
    requires { FitsTurn turn }
    ensures { result ≡ steps.requests turn }
{
    requesting(turn, new_exchange(turn, REQUEST))
}

/// A RENEW of this exchange.
pub(crate) fn renewing(turn: Turn6, exchange: Exchange6) -> Step6
    ensures { result ≡ steps.renewing turn exchange }
{
    speaks(turn, Kind6::Renew, exchange, State6::Renewing { exchange })
}

/// The first RENEW.
pub(crate) fn renews(turn: Turn6) -> Step6
    requires { FitsTurn turn }
    ensures { result ≡ steps.renews turn }
{
    renewing(turn, new_exchange(turn, RENEW))
}

/// A REBIND of this exchange for the items that are held.
pub(crate) fn rebinding(turn: Turn6, exchange: Exchange6) -> Step6
    ensures { result ≡ steps.rebinding turn exchange }
{
    speaks(
        turn,
        Kind6::Rebind,
        exchange,
        State6::Rebinding { exchange },
    )
}

/// The first REBIND for the items that are held.
pub(crate) fn rebinds(turn: Turn6) -> Step6
    requires { FitsTurn turn }
    ensures { result ≡ steps.rebinds turn }
{
    rebinding(turn, new_exchange(turn, REBIND))
}

/// A REBIND of this exchange for the items of the kept lease that were valid at `since`.
pub(crate) fn restarting(
    turn: Turn6,
    exchange: Exchange6,
    end: u64,
    since: u64,
    stands: bool,
) -> Step6
    ensures { result ≡ steps.restarting turn exchange end since stands }
{
    let state = State6::Restarting {
        exchange,
        end,
        since,
        stands,
    };
    speaks(turn, Kind6::Rebind, exchange, state)
}

/// The first REBIND for the items of the kept lease that are valid now. A client that stands holds them from now on.
pub(crate) fn restarts(turn: Turn6, stands: bool) -> Step6
    requires { FitsTurn turn }
    ensures { result ≡ steps.restarts turn stands }
{
    let exchange = new_exchange(turn, REBIND);
    let news = if stands {
        News6::Changed
    } else {
        News6::Nothing
    };
    Step6 {
        news,
        ..restarting(turn, exchange, turn.at + RESTART_TIME, turn.at, stands)
    }
}

/// A DECLINE of this exchange.
pub(crate) fn declining(turn: Turn6, exchange: Exchange6) -> Step6
    ensures { result ≡ steps.declining turn exchange }
{
    speaks(
        turn,
        Kind6::Decline,
        exchange,
        State6::Declining { exchange },
    )
}

/// The first DECLINE.
pub(crate) fn declines(turn: Turn6) -> Step6
    requires { FitsTurn turn }
    ensures { result ≡ steps.declines turn }
{
    declining(turn, new_exchange(turn, DECLINE))
}

// ---- the end of items

/// The last one goes.
pub(crate) fn is_last(parting: Parting6) -> bool
    ensures { result ≡ steps.is_last parting }
{
    parting.goes && !parting.stays
}

/// Where the last one goes there is no kept lease any more.
pub(crate) fn keep_by(parting: Parting6) -> Keep6
    ensures { result ≡ steps.keep_by parting }
{
    if is_last(parting) {
        Keep6::Clears
    } else {
        Keep6::Stays
    }
}

/// A change of the kept lease is news where there is no other.
fn news_or_changed(news: News6) -> News6
    ensures { result ≡ steps.news_or_changed news }
{
    match news {
        News6::Nothing => News6::Changed,
        News6::Bound
        | News6::Reboot
        | News6::Renew
        | News6::Rebind
        | News6::Changed
        | News6::Expire
        | News6::Stop => news,
    }
}

/// Where items go, the step tells it.
pub(crate) fn tells_parting(parting: Parting6, step: Step6) -> Step6
    ensures { result ≡ steps.tells_parting parting step }
{
    if parting.goes {
        return Step6 {
            news: news_or_changed(step.news),
            ..step
        };
    }
    step
}

/// No item is left: servers are looked for anew, and none is kept.
fn loses(turn: Turn6) -> Step6
    requires { FitsTurn turn }
    ensures { result ≡ steps.loses turn }
{
    Step6 {
        keep: Keep6::Clears,
        news: News6::Changed,
        ..to_waiting(turn)
    }
}

/// No item is held any more.
pub(crate) fn expires(turn: Turn6) -> Step6
    requires { FitsTurn turn }
    ensures { result ≡ steps.expires turn }
{
    Step6 {
        news: News6::Expire,
        ..loses(turn)
    }
}

/// No item of a restart is left.
pub(crate) fn emptied(turn: Turn6, stands: bool) -> Step6
    requires { FitsTurn turn }
    ensures { result ≡ steps.emptied turn stands }
{
    if stands {
        return expires(turn);
    }
    loses(turn)
}

/// No server answered a restart: the lease stays kept, and isn't held.
pub(crate) fn unanswered(turn: Turn6, stands: bool) -> Step6
    requires { FitsTurn turn }
    ensures { result ≡ steps.unanswered turn stands }
{
    let news = if stands {
        News6::Expire
    } else {
        News6::Nothing
    };
    Step6 {
        news,
        ..to_waiting(turn)
    }
}

/// The items of a Reply are held and kept.
pub(crate) fn binds(turn: Turn6, news: News6) -> Step6
    ensures { result ≡ steps.binds turn news }
{
    Step6 {
        keep: Keep6::Takes,
        news,
        ..rests(turn, State6::Bound)
    }
}
