//! Which interfaces have something to do in a turn.

ghost use Rattle.std.specs.Prelude.{◌≡◌};
ghost use Rattle.script_model.specs.IfaceSets.{is_in};
ghost use Rattle.iface_core.specs.Inputs.{event_of, turn_of};
ghost use Rattle.client_core.specs.Resting.{Finds, is_called, is_met};

use crate::named::Named;
use crate::places::Places;
use iface_core::{Turn, TurnInput, contains};
use net_types::IfIndex;

/// The places of the interfaces to which an input brings something.
#[tactic(auto, using(crate::proofs::Calling::named_there))]
fn met_places(named: &Named, input: TurnInput<'_>) -> Places
    ensures { Finds (λ _ index. is_met index (event_of input.entry)) named.now result }
{
    match input {
        TurnInput::Frame { iface, .. } => named.places(iface),
        TurnInput::Carrier { iface, .. } => named.places(iface),
        TurnInput::Duplicate { iface, .. } => named.places(iface),
        TurnInput::Release { iface } => named.places(iface),
        TurnInput::Rebind { iface } => named.places(iface),
        TurnInput::Stop => Places::all(),
        TurnInput::Quiet => Places::none(),
    }
}

/// The places of the interfaces of which a frame couldn't be sent in the turn before.
fn unsent_places(named: &Named, unsent: u64) -> Places
    ensures { Finds (λ _. is_in unsent) named.now result }
{
    let mut places = Places::none();
    if unsent == 0 {
        return places;
    }
    'indices: for before in 0..64 {
        let index = IfIndex { number: before + 1 };
        if contains(unsent, index) {
            places = places.or(named.places(index.number));
        }
    }
    places
}

/// The places of the interfaces to which something comes from outside: the input, or word that a frame of their own
/// couldn't be sent.
pub fn called_places(named: &Named, turn: &Turn<'_>) -> Places
    ensures { Finds (λ _ index. is_called index (turn_of turn.now)) named.now result }
{
    unsent_places(named, turn.unsent).or(met_places(named, turn.input))
}
