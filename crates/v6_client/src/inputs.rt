//! What a client does when the carrier comes, another host uses an address, or the host wishes it.

ghost use Rattle.std.specs.Prelude.{◌≡◌};
ghost use Rattle.v6_client.specs.Inputs as inputs;
ghost use Rattle.v6_client.specs.Times.{FitsTurn};

use crate::exchange::new_xid;
use crate::states::{Keep6, News6, Say6, State6, Step6, Tell6};
use crate::steps::{
    declines, expires, goes_to, is_last, keep_by, rebinds, restarts, rests, tells_parting,
    to_waiting,
};
use crate::turn::Turn6;
use v6_items::Parting6;
use v6_message::Kind6;

/// The client begins. `parting` is of the items of the kept lease that are valid, and `stands` says whether they are
/// held while they are asked for again.
fn begins(turn: Turn6, stands: bool, parting: Parting6) -> Step6
    requires { FitsTurn turn }
    ensures { result ≡ inputs.begins turn stands parting }
{
    let step = if parting.stays {
        restarts(turn, stands)
    } else {
        to_waiting(turn)
    };
    Step6 {
        spends: true,
        ..step
    }
}

/// The carrier comes.
pub(crate) fn begin_row(turn: Turn6, stands: bool, parting: Parting6, state: State6) -> Step6
    requires { FitsTurn turn }
    ensures { result ≡ inputs.begin_row turn stands parting state }
{
    match state {
        State6::Off => begins(turn, stands, parting),
        State6::Waiting { .. }
        | State6::Soliciting { .. }
        | State6::Requesting { .. }
        | State6::Bound
        | State6::Renewing { .. }
        | State6::Rebinding { .. }
        | State6::Restarting { .. }
        | State6::Declining { .. } => rests(turn, state),
    }
}

/// The client is off, and doesn't stand on its lease when it begins again.
fn turns_off(turn: Turn6) -> Step6
    ensures { result ≡ inputs.turns_off turn }
{
    Step6 {
        spends: true,
        ..rests(turn, State6::Off)
    }
}

/// The carrier goes.
pub(crate) fn off_row(turn: Turn6) -> Step6
    ensures { result ≡ inputs.off_row turn }
{
    turns_off(turn)
}

/// A held address may be in use elsewhere.
fn contested(turn: Turn6, parting: Parting6, state: State6) -> Step6
    requires { FitsTurn turn }
    ensures { result ≡ inputs.contested turn parting state }
{
    if parting.goes {
        return Step6 {
            keep: keep_by(parting),
            news: News6::Changed,
            ..declines(turn)
        };
    }
    rests(turn, state)
}

/// An address of a restart whose items are held may be in use elsewhere: it isn't asked for again.
fn missed(turn: Turn6, parting: Parting6, state: State6) -> Step6
    requires { FitsTurn turn }
    ensures { result ≡ inputs.missed turn parting state }
{
    let step = if is_last(parting) {
        expires(turn)
    } else {
        rests(turn, state)
    };
    tells_parting(parting, step)
}

/// Another host uses an address. `parting` is of the items that are held.
pub(crate) fn duplicate_row(turn: Turn6, parting: Parting6, state: State6) -> Step6
    requires { FitsTurn turn }
    ensures { result ≡ inputs.duplicate_row turn parting state }
{
    match state {
        // items are held
        State6::Bound
        | State6::Renewing { .. }
        | State6::Rebinding { .. }
        | State6::Declining { .. } => contested(turn, parting, state),
        State6::Restarting { stands, .. } => {
            if stands {
                return missed(turn, parting, state);
            }
            rests(turn, state)
        }
        State6::Off
        | State6::Waiting { .. }
        | State6::Soliciting { .. }
        | State6::Requesting { .. } => rests(turn, state),
    }
}

/// The items aren't held any more.
fn stops(turn: Turn6, tell: Tell6) -> Step6
    ensures { result ≡ inputs.stops turn tell }
{
    match tell {
        // RELEASE with a new transaction id
        Tell6::Server => {
            let xid = new_xid(turn);
            let say = Say6 {
                kind: Kind6::Release,
                xid,
                elapsed: 0,
            };
            Step6 {
                keep: Keep6::Clears,
                say: Some(say),
                news: News6::Stop,
                spends: true,
                ..goes_to(State6::Off, Some(xid))
            }
        }
        Tell6::Nobody => Step6 {
            news: News6::Stop,
            ..turns_off(turn)
        },
    }
}

fn released(turn: Turn6, tell: Tell6, held: bool) -> Step6
    ensures { result ≡ inputs.released turn tell held }
{
    if held {
        return stops(turn, tell);
    }
    turns_off(turn)
}

/// The client stops. `held` says whether an item is left.
pub(crate) fn release_row(turn: Turn6, tell: Tell6, held: bool, state: State6) -> Step6
    ensures { result ≡ inputs.release_row turn tell held state }
{
    match state {
        // items are held
        State6::Bound
        | State6::Renewing { .. }
        | State6::Rebinding { .. }
        | State6::Declining { .. } => released(turn, tell, held),
        State6::Restarting { stands, .. } => {
            if stands {
                return released(turn, tell, held);
            }
            turns_off(turn)
        }
        State6::Off
        | State6::Waiting { .. }
        | State6::Soliciting { .. }
        | State6::Requesting { .. } => turns_off(turn),
    }
}

/// The items are to be rebound at once. `parting` is of the items of the kept lease that are valid.
pub(crate) fn rebind_row(turn: Turn6, parting: Parting6, state: State6) -> Step6
    requires { FitsTurn turn }
    ensures { result ≡ inputs.rebind_row turn parting state }
{
    match state {
        // the client begins, without a lease to stand on
        State6::Off => begins(turn, false, parting),
        // REBIND
        State6::Bound | State6::Renewing { .. } => rebinds(turn),
        State6::Waiting { .. }
        | State6::Soliciting { .. }
        | State6::Requesting { .. }
        | State6::Rebinding { .. }
        | State6::Restarting { .. }
        | State6::Declining { .. } => rests(turn, state),
    }
}
