//! A client's own messages, byte for byte.

ghost use Rattle.std.specs.Prelude.{◌≡◌, ◌∷◌, ◌++◌, [], IfOk, OnOk};
ghost use Rattle.v4_message.specs.Requests.{AskFits, ask_content};
ghost use Rattle.lease_evidence.specs.OwnMessages.{own_in, speaker_of};
ghost use Rattle.own_frames4.specs.Offered.{messages_by};

use audit_words::Offer;
use client_frames::{is_spelled, seen_in};
use net_types::NoMemory;
use settings::Managed;
use std::alloc::Global;
use v4_frames::{Sent4, Speaker};
use v4_message::Ask4;

/// The message of this client whose frame this is, byte for byte: with its hardware address, flags and options (RFC
/// 2131, section 4.4.1 and table 5). Only want of memory is an error.
#[tactic(auto, using(crate::proofs::OwnTests::unsaid, crate::proofs::OwnTests::foreign, crate::proofs::OwnTests::unspelled, crate::proofs::OwnTests::spelled))]
pub fn own4(
    alloc: Global,
    speaker: Speaker,
    ask: &Ask4,
    frame: &[u8],
) -> Result<Option<Sent4>, NoMemory>
    requires { AskFits (ask_content ask.now) }
    ensures { IfOk result (λ sent. sent ≡ own_in speaker (ask_content ask.now) frame.now) }
{
    let Some(seen) = seen_in(frame) else {
        return Ok(None);
    };
    if !speaker.is_ours(&seen.sent) {
        return Ok(None);
    }
    if !is_spelled(alloc, frame, &seen.sent, ask)? {
        return Ok(None);
    }
    Ok(Some(seen.sent))
}

/// The client of an interface, as its messages show it.
fn speaker_of(managed: &Managed) -> Speaker
    ensures { result ≡ speaker_of managed.now }
{
    Speaker {
        mac: managed.spec.mac,
        broadcast: managed.conf.flags.broadcast,
    }
}

/// What the frames say that were offered on an interface, in order: None for each that is no message of its client.
pub fn messages_of(
    alloc: Global,
    managed: &Managed,
    ask: &Ask4,
    offers: &[Offer],
) -> Result<Vec<Option<Sent4>>, NoMemory>
    requires { AskFits (ask_content ask.now) }
    ensures { IfOk result (λ messages. messages.items ≡ messages_by managed.now (ask_content ask.now) offers.now) }
{
    let mut messages = Vec::new(alloc);
    for offer in offers {
        push_message(alloc, &mut messages, managed, ask, offer)?;
    }
    Ok(messages)
}

/// Appends what a frame says, if it was offered on the interface.
fn push_message(
    alloc: Global,
    messages: &mut Vec<Option<Sent4>>,
    managed: &Managed,
    ask: &Ask4,
    offer: &Offer,
) -> Result<(), NoMemory>
    requires { AskFits (ask_content ask.now) }
    ensures { OnOk result
        (messages.new.items ≡ messages.old.items ++ messages_by managed.now (ask_content ask.now) (offer.now ∷ [])) }
{
    if offer.iface != managed.spec.index {
        return Ok(());
    }
    let message = own4(alloc, speaker_of(managed), ask, &offer.bytes)?;
    messages.push(message)?;
    Ok(())
}
