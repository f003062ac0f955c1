//! In which states items are held, and a server is asked otherwise.

ghost use Rattle.std.specs.Prelude.{◌≡◌};
ghost use Rattle.v6_client.specs.Clients as clients;

use crate::states::State6;
use v6_items::Scope6;

/// Which items of the kept lease are the client's own.
pub(crate) fn scope_of(state: State6) -> Scope6
    ensures { result ≡ clients.scope_of state }
{
    match state {
        State6::Off
        | State6::Waiting { .. }
        | State6::Soliciting { .. }
        | State6::Requesting { .. } => Scope6::Nothing,
        State6::Bound
        | State6::Renewing { .. }
        | State6::Rebinding { .. }
        | State6::Declining { .. } => Scope6::All,
        State6::Restarting { since, stands, .. } => {
            if stands {
                Scope6::All
            } else {
                Scope6::Since(since)
            }
        }
    }
}

/// Which items of the kept lease a Reply meets: in a restart those that are valid, whether they are held or not.
pub(crate) fn met_scope(state: State6) -> Scope6
    ensures { result ≡ clients.met_scope state }
{
    match state {
        State6::Off
        | State6::Waiting { .. }
        | State6::Soliciting { .. }
        | State6::Requesting { .. } => Scope6::Nothing,
        State6::Bound
        | State6::Renewing { .. }
        | State6::Rebinding { .. }
        | State6::Declining { .. } => Scope6::All,
        State6::Restarting { since, .. } => Scope6::Since(since),
    }
}

/// Whether items are held in the state.
pub(crate) fn holds(state: State6) -> bool
    ensures { result ≡ clients.holds state }
{
    match scope_of(state) {
        Scope6::All => true,
        Scope6::Nothing | Scope6::Since(_) => false,
    }
}

/// Whether a server is asked that isn't asked for held items.
pub(crate) fn pleads(state: State6) -> bool
    ensures { result ≡ clients.pleads state }
{
    match state {
        State6::Soliciting { .. } | State6::Requesting { .. } | State6::Declining { .. } => true,
        State6::Off
        | State6::Waiting { .. }
        | State6::Bound
        | State6::Renewing { .. }
        | State6::Rebinding { .. }
        | State6::Restarting { .. } => false,
    }
}

pub(crate) fn is_off(state: State6) -> bool
    ensures { result ≡ clients.is_off state }
{
    match state {
        State6::Off => true,
        State6::Waiting { .. }
        | State6::Soliciting { .. }
        | State6::Requesting { .. }
        | State6::Bound
        | State6::Renewing { .. }
        | State6::Rebinding { .. }
        | State6::Restarting { .. }
        | State6::Declining { .. } => false,
    }
}

pub(crate) fn is_restarting(state: State6) -> bool
    ensures { result ≡ clients.is_restarting state }
{
    match state {
        State6::Restarting { .. } => true,
        State6::Off
        | State6::Waiting { .. }
        | State6::Soliciting { .. }
        | State6::Requesting { .. }
        | State6::Bound
        | State6::Renewing { .. }
        | State6::Rebinding { .. }
        | State6::Declining { .. } => false,
    }
}

/// Whether no answer to a restart is waited for any longer.
pub(crate) fn is_at_end(at: u64, state: State6) -> bool
    ensures { result ≡ clients.is_at_end at state }
{
    match state {
        State6::Restarting { end, .. } => end <= at,
        State6::Off
        | State6::Waiting { .. }
        | State6::Soliciting { .. }
        | State6::Requesting { .. }
        | State6::Bound
        | State6::Renewing { .. }
        | State6::Rebinding { .. }
        | State6::Declining { .. } => false,
    }
}

pub(crate) fn is_declining(state: State6) -> bool
    ensures { result ≡ clients.is_declining state }
{
    match state {
        State6::Declining { .. } => true,
        State6::Off
        | State6::Waiting { .. }
        | State6::Soliciting { .. }
        | State6::Requesting { .. }
        | State6::Bound
        | State6::Renewing { .. }
        | State6::Rebinding { .. }
        | State6::Restarting { .. } => false,
    }
}
