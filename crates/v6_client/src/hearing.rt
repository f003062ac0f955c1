//! What a client does with a message that was judged.

ghost use Rattle.std.specs.Prelude.{◌≡◌};
ghost use Rattle.v6_client.specs.Hearing as hearing;
ghost use Rattle.v6_client.specs.Times.{FitsTurn};

use crate::exchange::Exchange6;
use crate::states::{Answer6, News6, State6, Step6};
use crate::steps::{binds, emptied, expires, requests, rests, to_waiting};
use crate::turn::Turn6;

/// An offer of this preference is taken at once (RFC 8415, section 18.2.1).
pub const HIGHEST_PREFERENCE: u8 = 255;

/// Whether an offer is taken at once: it has the highest preference, or comes after a second SOLICIT.
fn is_taken_at_once(exchange: Exchange6, preference: u8) -> bool
    ensures { result ≡ hearing.is_taken_at_once exchange preference }
{
    preference == HIGHEST_PREFERENCE || exchange.sent >= 2
}

/// Whether an offer is the first, or is preferred to the one that is kept.
fn is_better(offer: Option<u8>, preference: u8) -> bool
    ensures { result ≡ hearing.is_better offer preference }
{
    match offer {
        Some(kept) => kept < preference,
        None => true,
    }
}

/// Whether the message is an offer that the client keeps.
pub(crate) fn is_kept_offer(answer: Answer6, state: State6) -> bool
    ensures { result ≡ hearing.is_kept_offer answer state }
{
    match (answer, state) {
        (Answer6::Offer { preference }, State6::Soliciting { exchange, offer }) => {
            is_taken_at_once(exchange, preference) || is_better(offer, preference)
        }
        _ => false,
    }
}

fn offered(turn: Turn6, exchange: Exchange6, offer: Option<u8>, preference: u8) -> Step6
    requires { FitsTurn turn }
    ensures { result ≡ hearing.offered turn exchange offer preference }
{
    if is_taken_at_once(exchange, preference) {
        return requests(turn);
    }
    if is_better(offer, preference) {
        let state = State6::Soliciting {
            exchange,
            offer: Some(preference),
        };
        return rests(turn, state);
    }
    rests(turn, State6::Soliciting { exchange, offer })
}

/// In Soliciting.
fn solicited(turn: Turn6, exchange: Exchange6, offer: Option<u8>, answer: Answer6) -> Step6
    requires { FitsTurn turn }
    ensures { result ≡ hearing.solicited turn exchange offer answer }
{
    match answer {
        Answer6::Offer { preference } => offered(turn, exchange, offer, preference),
        // a Reply at once
        Answer6::Grants => binds(turn, News6::Bound),
        Answer6::Empties => to_waiting(turn),
        Answer6::Nothing | Answer6::Keeps => rests(turn, State6::Soliciting { exchange, offer }),
    }
}

/// Where a Reply is waited for. `emptied` is the step where no item is left.
fn replied(turn: Turn6, news: News6, emptied: Step6, state: State6, answer: Answer6) -> Step6
    ensures { result ≡ hearing.replied turn news emptied state answer }
{
    match answer {
        Answer6::Grants => binds(turn, news),
        Answer6::Empties => emptied,
        Answer6::Nothing | Answer6::Offer { .. } | Answer6::Keeps => rests(turn, state),
    }
}

/// In Declining.
fn declined(turn: Turn6, state: State6, answer: Answer6) -> Step6
    requires { FitsTurn turn }
    ensures { result ≡ hearing.declined turn state answer }
{
    match answer {
        // what is left is held
        Answer6::Keeps => rests(turn, State6::Bound),
        Answer6::Empties => expires(turn),
        Answer6::Nothing | Answer6::Offer { .. } | Answer6::Grants => rests(turn, state),
    }
}

/// A message that says `answer` to a client in this state.
pub(crate) fn heard_row(turn: Turn6, answer: Answer6, state: State6) -> Step6
    requires { FitsTurn turn }
    ensures { result ≡ hearing.heard_row turn answer state }
{
    match state {
        // an Advertise, or a Reply at once
        State6::Soliciting { exchange, offer } => solicited(turn, exchange, offer, answer),
        // a Reply
        State6::Requesting { .. } => {
            replied(turn, News6::Bound, to_waiting(turn), state, answer)
        }
        State6::Renewing { .. } => replied(turn, News6::Renew, expires(turn), state, answer),
        State6::Rebinding { .. } => replied(turn, News6::Rebind, expires(turn), state, answer),
        State6::Restarting { stands, .. } => {
            replied(turn, News6::Reboot, emptied(turn, stands), state, answer)
        }
        State6::Declining { .. } => declined(turn, state, answer),
        // no answer is waited for
        State6::Off | State6::Waiting { .. } | State6::Bound => rests(turn, state),
    }
}
