//! The frames of a step are offered to the link, each with its line in the transcript, and it is noted on which
//! interfaces a send failed.

ghost use Rattle.std.specs.Prelude.{◌≡◌, [], ◌∷◌, IfOk, IfErr, OnOk, map};
ghost use Rattle.std.specs.List.{AllByRecursion};
ghost use Rattle.world.specs.Rows.{IsInterface};
ghost use Rattle.script_model.specs.Lines as lines;
ghost use Rattle.client_core.specs.IfaceMachines.Outcomes.{sending_of};
ghost use Rattle.client_core.specs.Stepping.{IsOnInterface};
ghost use Rattle.device_calls.specs.Calls.{Offer};
ghost use Rattle.device_calls.specs.Programs.{Then, Done};
ghost use Rattle.device_calls.specs.Printing.{Prints};
ghost use Rattle.device_calls.specs.Does.{Does};
ghost use Rattle.device_calls.specs.Fronts.{HasBegun};
ghost use Rattle.turn_model.specs.Turns.{marked, offering};

use client_core::Sending;
use life_devices::{Outside, say};
use net_types::IfIndex;
use std::alloc::Global;
use transcript_text::TranscriptLine;
use world::NoMemory;

/// The interfaces on which a send failed, with one more where this one did: bit `i - 1` is interface `i`.
fn marked(unsent: u64, iface: IfIndex, taken: bool) -> u64
    requires { IsInterface iface.number }
    ensures { result ≡ marked unsent iface.number taken }
{
    if taken {
        unsent
    } else {
        unsent | 2u64.pow(iface.number - 1)
    }
}

fn say_send(iface: IfIndex, bytes: &[u8], taken: bool, text: &mut Vec<u8>) -> Result<(), NoMemory>
    ensures { OnOk result (Prints text.old.items text.new.items (lines.Send iface bytes.now taken ∷ [])) }
{
    let line = TranscriptLine::Send {
        iface,
        bytes,
        taken,
    };
    say(&line, text)
}

fn offer<W: Outside>(
    outside: &mut W,
    sending: &Sending,
    text: &mut Vec<u8>,
) -> Result<bool, NoMemory>
    ensures does { IfOk result
        (λ taken. Does (Then (Offer sending.now.iface.number sending.now.bytes.items) Done) taken
        (W.seen outside.old) (W.seen outside.new) text.old.items text.new.items) }
    ensures begun { IfErr result
        (λ _. HasBegun (Then (Offer sending.now.iface.number sending.now.bytes.items) Done) (W.seen outside.old)
        (W.seen outside.new)) }
    ensures waiting { (W.seen outside.new).waiting ≡ (W.seen outside.old).waiting }
{
    let taken = outside.offer(sending.iface, &sending.bytes)?;
    say_send(sending.iface, &sending.bytes, taken, text)?;
    Ok(taken)
}

/// Offers the frames, one after another. A failed send doesn't stop the others.
/// Answers the interfaces on which one failed: bit `i - 1` is interface `i`.
pub fn offer_all<W: Outside>(
    outside: &mut W,
    sends: &[Sending],
    unsent: u64,
    text: &mut Vec<u8>,
) -> Result<u64, NoMemory>
    requires { AllByRecursion IsOnInterface (map sending_of sends.now) }
    ensures does { IfOk result
        (λ set. Does (offering (map sending_of sends.now) unsent) set (W.seen outside.old)
        (W.seen outside.new) text.old.items text.new.items) }
    ensures begun { IfErr result
        (λ _. HasBegun (offering (map sending_of sends.now) unsent) (W.seen outside.old) (W.seen outside.new)) }
    ensures waiting { (W.seen outside.new).waiting ≡ (W.seen outside.old).waiting }
{
    match sends {
        [] => Ok(unsent),
        [first, later @ ..] => {
            let taken = offer(outside, first, text)?;
            offer_all(outside, later, marked(unsent, first.iface, taken), text)
        }
    }
}
