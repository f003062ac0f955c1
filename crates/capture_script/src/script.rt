//! The script of a capture.

ghost use Rattle.std.specs.Prelude.{◌≡◌, ◌++◌, ◌^◌, ◌<◌, ◌≤◌, ◌∷◌, [], Ok, Err, true, length, IfOk, IfErr, OnOk};
ghost use Rattle.net_types.specs.Moments.{IsMoment};
ghost use Rattle.net_types.specs.TextLines.{ended, lines_text};
ghost use Rattle.capture_script.specs.declared.script.ImportAnswer.TheVariants as answers;
ghost use Rattle.capture_script.specs.Captures.{capture_form, captured_in, packets_in};
ghost use Rattle.capture_script.specs.CapturedScripts.{IsImported, IsRefused, captured_lines, first_moment, is_own, is_used, head_lines, spec_of, turn_lines, used_of};
ghost use Rattle.capture_script.specs.PacketViews.{packet_shown};

use crate::forms::{CaptureCause, Form, HEADER_LEN, capture_form};
use crate::packets::{FRAME_ROOM, Packet, first_packet};
use net_types::{IfIndex, IfSpec, Mac, Name, NoMemory, append_bytes};
use std::alloc::Global;
use thiserror::Error;
use transcript_text::{TranscriptLine, print_line};
use world::{Begin, Event};

/// Why there is no script of a capture.
#[derive(Clone, Copy, Debug, PartialEq, Eq, Error)]
pub enum ImportAnswer {
    /// The bytes are no capture that can be imported.
    #[error(transparent)]
    Bad(CaptureCause),
    #[error("NoMemory")]
    NoMemory,
}

impl From<NoMemory> for ImportAnswer {
    ghost from_gives = { λ _ answer. answer ≡ answers.NoMemory };

    fn from(_error: NoMemory) -> ImportAnswer {
        ImportAnswer::NoMemory
    }
}

/// The interface of the script.
const INDEX: u32 = 1;

/// Whether a frame was sent from this hardware address.
fn is_own(own: Mac, frame: &[u8]) -> bool
    ensures { result ≡ is_own own.bytes frame.now }
{
    frame.len() >= 14 && &frame[6..12] == own.bytes.as_slice()
}

/// Whether a packet comes into the script.
fn is_used(own: Mac, packet: Packet<'_>) -> bool
    ensures { result ≡ is_used own.bytes (packet_shown packet.entry) }
{
    packet.bytes.len() <= FRAME_ROOM && !is_own(own, packet.bytes)
}

/// The moment of the first packet that is used, or 0.
fn first_moment(form: Form, own: Mac, records: &[u8]) -> u64
    ensures { result ≡ first_moment (used_of own (packets_in form records.now)) }
{
    let mut rest = records;
    'packets: while let Some((packet, others)) = first_packet(form, rest) {
        if is_used(own, packet) {
            return packet.at;
        }
        rest = others;
    }
    0
}

/// Appends the lines before the turns.
#[tactic(auto, using(crate::proofs::CapturedTexts::head_said))]
fn append_head(spec: IfSpec, at: u64, into: &mut Vec<u8>) -> Result<(), NoMemory>
    ensures { OnOk result (into.new.items ≡ into.old.items ++ lines_text (head_lines spec at)) }
{
    append_bytes(b"dhcpcd-script 1\n", into)?;
    print_line(&TranscriptLine::Interface(spec), into)?;
    let begin = Begin { at, salt: 0, up: 1 };
    print_line(&TranscriptLine::Start(begin), into)?;
    Ok(())
}

/// Appends the turn in which a packet comes in.
#[tactic(auto, unfolding(script_model::specs::Lines::line_words), using(std::proofs::Common::append_assoc))]
fn append_turn(packet: Packet<'_>, into: &mut Vec<u8>) -> Result<(), NoMemory>
    ensures { OnOk result
        (into.new.items ≡ into.old.items ++ lines_text (turn_lines (packet_shown packet.entry ∷ []))) }
{
    let event = Event::Frame {
        iface: INDEX,
        len: packet.bytes.len(),
    };
    print_line(
        &TranscriptLine::Turn {
            at: packet.at,
            salt: 0,
            event,
            bytes: packet.bytes,
        },
        into,
    )
}

/// Appends a turn for each packet that is used.
fn append_turns(form: Form, own: Mac, records: &[u8], into: &mut Vec<u8>) -> Result<(), NoMemory>
    ensures { OnOk result
        (into.new.items ≡ into.old.items ++ lines_text (turn_lines (used_of own (packets_in form records.now)))) }
{
    let mut rest = records;
    'packets: while let Some((packet, others)) = first_packet(form, rest) {
        if is_used(own, packet) {
            append_turn(packet, into)?;
        }
        rest = others;
    }
    Ok(())
}

/// The text of the script that a capture means: an interface with this name and hardware address, which has carrier,
/// and a turn for each packet that has room in a script and wasn't sent by it. Moments are as they were captured, so
/// they may fall. Linear in the capture.
#[tactic(auto, using(crate::proofs::CapturedTexts::imported))]
pub fn import(alloc: Global, bytes: &[u8], name: Name, mac: Mac) -> Result<Vec<u8>, ImportAnswer>
    ensures ok { IfOk result (λ text. IsImported bytes.now (spec_of name mac) text.items) }
    ensures bad { IfErr result (IsRefused bytes.now) }
{
    let form = capture_form(bytes).map_err(ImportAnswer::Bad)?;
    let (_, records) = bytes.split_at(HEADER_LEN);
    let spec = IfSpec {
        index: IfIndex { number: INDEX },
        name,
        mac,
    };
    let mut text = Vec::new(alloc);
    append_head(spec, first_moment(form, mac, records), &mut text)?;
    append_turns(form, mac, records, &mut text)?;
    Ok(text)
}
