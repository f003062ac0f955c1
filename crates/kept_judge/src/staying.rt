//! What the input of a turn means to the carrier of an interface, and to what it holds.

ghost use Rattle.std.specs.Prelude.{◌≡◌};
ghost use Rattle.audit_words.specs.EvidenceWords.Inputs.{carrier_after};
ghost use Rattle.kept_judge.specs.Staying.{stays};

use world::Event;

/// Whether the interface of this number has carrier then.
pub(crate) fn carrier_after(index: u32, event: Event, before: bool) -> bool
    ensures { result ≡ carrier_after index event before }
{
    match event {
        Event::Carrier { iface, up } if iface == index => up,
        Event::Carrier { .. }
        | Event::Frame { .. }
        | Event::Duplicate { .. }
        | Event::Release { .. }
        | Event::Rebind { .. }
        | Event::Stop
        | Event::Quiet
        | Event::End => before,
    }
}

/// Whether no carrier is taken from the interface that has it, nothing of it is given back, and no stop comes.
pub(crate) fn stays(up: bool, index: u32, event: Event) -> bool
    ensures { result ≡ stays up index event }
{
    match event {
        Event::Carrier { iface, up: now } => now || !(index == iface && up),
        Event::Release { iface } => index != iface,
        Event::Stop => false,
        Event::Frame { .. }
        | Event::Duplicate { .. }
        | Event::Rebind { .. }
        | Event::Quiet
        | Event::End => true,
    }
}
