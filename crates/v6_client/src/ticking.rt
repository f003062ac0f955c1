//! What a client does when its moment has come.

ghost use Rattle.std.specs.Prelude.{◌≡◌};
ghost use Rattle.v6_client.specs.Due as moments;
ghost use Rattle.v6_client.specs.Ticks as ticks;
ghost use Rattle.v6_client.specs.Times.{FitsTurn};

use crate::exchange::{Exchange6, solicit_parameters};
use crate::states::{State6, Step6};
use crate::steps::{
    declining, emptied, expires, is_last, keep_by, rebinding, rebinds, renewing, renews,
    requesting, requests, restarting, rests, soliciting, solicits, tells_parting, to_waiting,
    unanswered,
};
use crate::turn::Turn6;
use machine::has_come;
use v6_items::{Dates6, Parting6, earlier};
use v6_retrans::parameters::{DECLINE, REBIND, RENEW, REQUEST};

/// The moment at which a client acts next.
pub(crate) fn due_row(dates: Dates6, state: State6) -> Option<u64>
    ensures { result ≡ moments.due_row dates state }
{
    match state {
        State6::Off => None,
        State6::Waiting { due } => Some(due),
        State6::Soliciting { exchange, .. } | State6::Requesting { exchange } => Some(exchange.due),
        State6::Bound => earlier(dates.t1, earlier(dates.t2, dates.lapse)),
        State6::Renewing { exchange } => {
            earlier(Some(exchange.due), earlier(dates.t2, dates.lapse))
        }
        State6::Rebinding { exchange } | State6::Declining { exchange } => {
            earlier(Some(exchange.due), dates.lapse)
        }
        State6::Restarting { exchange, end, .. } => {
            earlier(Some(exchange.due.min(end)), dates.lapse)
        }
    }
}

fn soliciting_tick(turn: Turn6, exchange: Exchange6, offer: Option<u8>) -> Step6
    requires { FitsTurn turn }
    ensures { result ≡ ticks.soliciting_tick turn exchange offer }
{
    match offer {
        // the server that offered is asked
        Some(_) => requests(turn),
        // SOLICIT again
        None => soliciting(turn, exchange.again(turn, solicit_parameters(turn))),
    }
}

fn requesting_tick(turn: Turn6, exchange: Exchange6) -> Step6
    requires { FitsTurn turn }
    ensures { result ≡ ticks.requesting_tick turn exchange }
{
    if exchange.is_used_up(REQUEST) {
        return to_waiting(turn);
    }
    // REQUEST again
    requesting(turn, exchange.again(turn, REQUEST))
}

fn bound_tick(turn: Turn6, dates: Dates6, parting: Parting6) -> Step6
    requires { FitsTurn turn }
    ensures { result ≡ ticks.bound_tick turn dates parting }
{
    // the last item is over
    if is_last(parting) {
        return expires(turn);
    }
    // T2
    if has_come(dates.t2, turn.at) {
        return rebinds(turn);
    }
    // T1
    if has_come(dates.t1, turn.at) {
        return renews(turn);
    }
    rests(turn, State6::Bound)
}

fn renewing_tick(turn: Turn6, dates: Dates6, parting: Parting6, exchange: Exchange6) -> Step6
    requires { FitsTurn turn }
    ensures { result ≡ ticks.renewing_tick turn dates parting exchange }
{
    // the last item is over
    if is_last(parting) {
        return expires(turn);
    }
    // T2
    if has_come(dates.t2, turn.at) {
        return rebinds(turn);
    }
    // RENEW again
    if exchange.is_due(turn) {
        return renewing(turn, exchange.again(turn, RENEW));
    }
    rests(turn, State6::Renewing { exchange })
}

fn rebinding_tick(turn: Turn6, parting: Parting6, exchange: Exchange6) -> Step6
    requires { FitsTurn turn }
    ensures { result ≡ ticks.rebinding_tick turn parting exchange }
{
    // the last item is over
    if is_last(parting) {
        return expires(turn);
    }
    // REBIND again
    if exchange.is_due(turn) {
        return rebinding(turn, exchange.again(turn, REBIND));
    }
    rests(turn, State6::Rebinding { exchange })
}

fn restarting_tick(
    turn: Turn6,
    parting: Parting6,
    exchange: Exchange6,
    end: u64,
    since: u64,
    stands: bool,
) -> Step6
    requires { FitsTurn turn }
    ensures { result ≡ ticks.restarting_tick turn parting exchange end since stands }
{
    // the last item is over
    if is_last(parting) {
        return emptied(turn, stands);
    }
    // no answer came
    if end <= turn.at {
        return unanswered(turn, stands);
    }
    let since = since.max(turn.at);
    // REBIND again
    if exchange.is_due(turn) {
        return restarting(turn, exchange.again(turn, REBIND), end, since, stands);
    }
    let state = State6::Restarting {
        exchange,
        end,
        since,
        stands,
    };
    rests(turn, state)
}

/// What is left is held.
fn ended(turn: Turn6, parting: Parting6) -> Step6
    requires { FitsTurn turn }
    ensures { result ≡ ticks.ended turn parting }
{
    if parting.stays {
        return rests(turn, State6::Bound);
    }
    expires(turn)
}

fn declining_tick(turn: Turn6, parting: Parting6, exchange: Exchange6) -> Step6
    requires { FitsTurn turn }
    ensures { result ≡ ticks.declining_tick turn parting exchange }
{
    if !exchange.is_due(turn) {
        return Step6 {
            keep: keep_by(parting),
            ..rests(turn, State6::Declining { exchange })
        };
    }
    // no answer came
    if exchange.is_used_up(DECLINE) {
        return ended(turn, parting);
    }
    // DECLINE again
    Step6 {
        keep: keep_by(parting),
        ..declining(turn, exchange.again(turn, DECLINE))
    }
}

/// A tick of a state whose moment has come. `parting` says what is over of the client's items.
pub(crate) fn tick_row(turn: Turn6, dates: Dates6, parting: Parting6, state: State6) -> Step6
    requires { FitsTurn turn }
    ensures { result ≡ ticks.tick_row turn dates parting state }
{
    match state {
        State6::Off => rests(turn, State6::Off),
        // SOLICIT
        State6::Waiting { .. } => solicits(turn),
        // REQUEST for what was offered; else SOLICIT again
        State6::Soliciting { exchange, offer } => soliciting_tick(turn, exchange, offer),
        // REQUEST again; SOLICIT anew after the last one
        State6::Requesting { exchange } => requesting_tick(turn, exchange),
        // items are held: T2, then T1, then the message again; items that are over go
        State6::Bound => tells_parting(parting, bound_tick(turn, dates, parting)),
        State6::Renewing { exchange } => {
            tells_parting(parting, renewing_tick(turn, dates, parting, exchange))
        }
        State6::Rebinding { exchange } => {
            tells_parting(parting, rebinding_tick(turn, parting, exchange))
        }
        // the kept items are asked for again until the end; where they are held, those that are over go
        State6::Restarting {
            exchange,
            end,
            since,
            stands,
        } => {
            let step = restarting_tick(turn, parting, exchange, end, since, stands);
            if stands {
                return tells_parting(parting, step);
            }
            step
        }
        // DECLINE again; after the last one what is left is held
        State6::Declining { exchange } => {
            tells_parting(parting, declining_tick(turn, parting, exchange))
        }
    }
}
