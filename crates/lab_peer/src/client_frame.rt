//! A client's message, read back from its frame.

ghost use Rattle.std.specs.Prelude.{◌≡◌, IfOk};
ghost use Rattle.v4_options.specs.OptionValue.{bytes_at};
ghost use Rattle.v4_options.specs.OptionViews.{view_instances};
ghost use Rattle.v4_message.specs.Requests.{ask_content};
ghost use Rattle.lab_peer.specs.ClientFrames as texts;

use client_frames::{is_spelled, seen_in};
use net_types::NoMemory;
use std::alloc::Global;
use v4_frames::{Sent4, Speaker};
use v4_message::Ask4;
use v4_options::{OptionView, code, value};

/// The most bytes of an option's value.
const VALUE_MAX: usize = 255;

/// The message of some client whose frame this is, byte for byte. None where no client says it, whatever its
/// configuration is. Only want of memory is an error.
#[tactic(auto, using(crate::proofs::ClientsAlone::unsaid_frames))]
pub fn client_sent(alloc: Global, frame: &[u8]) -> Result<Option<Sent4>, NoMemory>
    ensures { IfOk result (λ sent. sent ≡ texts.client_sent frame.now) }
{
    let Some(seen) = seen_in(frame) else {
        return Ok(None);
    };
    if_said(alloc, frame, &seen.sent, &seen.options)
}

/// The message, where its frame is this one and some client may say it.
#[tactic(auto, using(crate::proofs::Tests::frame_tests))]
fn if_said(
    alloc: Global,
    frame: &[u8],
    sent: &Sent4,
    options: &OptionView,
) -> Result<Option<Sent4>, NoMemory>
    ensures { IfOk result
        (λ said. said ≡ texts.if_said (texts.ask_among (view_instances options.now)) frame.now sent.now) }
{
    let ask = ask_in(alloc, options)?;
    if !fits(&ask) {
        return Ok(None);
    }
    if !is_spelled(alloc, frame, sent, &ask)? {
        return Ok(None);
    }
    if !is_of_a_client(sent) {
        return Ok(None);
    }
    Ok(Some(*sent))
}

/// The value of a code, empty where it has no instance.
fn bytes_at(alloc: Global, options: &OptionView, code: u8) -> Result<Vec<u8>, NoMemory>
    ensures { IfOk result (λ bytes. bytes.items ≡ bytes_at code (view_instances options.now)) }
{
    match value(alloc, options, code)? {
        Some(bytes) => Ok(bytes),
        None => Ok(Vec::new(alloc)),
    }
}

/// What the client says of itself.
fn ask_in(alloc: Global, options: &OptionView) -> Result<Ask4, NoMemory>
    ensures { IfOk result (λ ask. ask_content ask ≡ texts.ask_among (view_instances options.now)) }
{
    Ok(Ask4 {
        client_id: bytes_at(alloc, options, code::CLIENT_IDENTIFIER)?,
        vendor: bytes_at(alloc, options, code::VENDOR_CLASS)?,
        host: bytes_at(alloc, options, code::HOST_NAME)?,
        list: bytes_at(alloc, options, code::PARAMETER_REQUEST_LIST)?,
    })
}

/// Whether each value fits one option.
#[tactic(auto, unfolding(crate::specs::ClientFrames::ask_fits))]
fn fits(ask: &Ask4) -> bool
    ensures { result ≡ texts.ask_fits (ask_content ask.now) }
{
    ask.client_id.len() <= VALUE_MAX
        && ask.vendor.len() <= VALUE_MAX
        && ask.host.len() <= VALUE_MAX
        && ask.list.len() <= VALUE_MAX
}

/// Whether the client at the message's own hardware address may say it, one that asks for answers by broadcast or one
/// that doesn't.
#[tactic(auto, unfolding(crate::specs::ClientFrames::is_of_a_client))]
fn is_of_a_client(sent: &Sent4) -> bool
    ensures { result ≡ texts.is_of_a_client sent.now }
{
    speaker(sent, false).is_ours(sent) || speaker(sent, true).is_ours(sent)
}

fn speaker(sent: &Sent4, broadcast: bool) -> Speaker
    ensures { result ≡ texts.speaker sent.now broadcast }
{
    Speaker {
        mac: sent.said.mac,
        broadcast,
    }
}
