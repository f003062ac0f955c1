//! The lines of turns, read.
ghost use Rattle.std.specs.Prelude.{◌≡◌, IfOk, option_map};
ghost use Rattle.script_lines.specs.TurnReading.{without_bytes};
ghost use Rattle.transcript_lines.specs.Contents.{line_of};
ghost use Rattle.transcript_lines.specs.TurnFields.{came_at, carrier_at, duplicate_at, event_at, frame_at, lone_at, plain_at, rebind_at, release_at, turn_at};

use crate::fields::{index_field_of, index_of};
use crate::lines::ToldLine;
use net_types::{NoMemory, end_of, hex_of, ip6_of, strip_word};
use script_lines::{moment_field_of, salt_field_of, switch_of};
use std::alloc::Global;
use world::Event;

fn frame_of(alloc: Global, bytes: &[u8]) -> Result<Option<(Event, Vec<u8>)>, NoMemory>
    ensures { IfOk result (λ o. option_map (λ p. (p.0, p.1.items)) o ≡ frame_at bytes.now) }
{
    let Some((iface, rest)) = index_field_of(bytes) else {
        return Ok(None);
    };
    let Some(frame) = hex_of(alloc, rest)? else {
        return Ok(None);
    };
    let len = frame.len();
    Ok(Some((Event::Frame { iface, len }, frame)))
}

/// An interface and the address that another node there has, in any spelling.
fn duplicate_of(bytes: &[u8]) -> Option<Event>
    ensures { option_map without_bytes result ≡ duplicate_at bytes.now }
{
    let (iface, rest) = index_field_of(bytes)?;
    let addr = ip6_of(rest)?;
    Some(Event::Duplicate { iface, addr })
}

fn lone_of(bytes: &[u8], event: Event) -> Option<Event>
    ensures { option_map without_bytes result ≡ lone_at event bytes.now }
{
    end_of(bytes)?;
    Some(event)
}

fn carrier_of(bytes: &[u8]) -> Option<Event>
    ensures { option_map without_bytes result ≡ carrier_at bytes.now }
{
    let (iface, rest) = index_field_of(bytes)?;
    let up = switch_of(rest)?;
    Some(Event::Carrier { iface, up })
}

fn release_of(bytes: &[u8]) -> Option<Event>
    ensures { option_map without_bytes result ≡ release_at bytes.now }
{
    let iface = index_of(bytes)?;
    Some(Event::Release { iface })
}

fn rebind_of(bytes: &[u8]) -> Option<Event>
    ensures { option_map without_bytes result ≡ rebind_at bytes.now }
{
    let iface = index_of(bytes)?;
    Some(Event::Rebind { iface })
}

/// An input without bytes and address.
#[tactic(auto, unfolding(crate::specs::TurnFields::plain_at))]
fn plain_of(bytes: &[u8]) -> Option<Event>
    ensures { option_map without_bytes result ≡ plain_at bytes.now }
{
    if let Some(rest) = strip_word(bytes, b"quiet") {
        return lone_of(rest, Event::Quiet);
    }
    if let Some(rest) = strip_word(bytes, b"stop") {
        return lone_of(rest, Event::Stop);
    }
    if let Some(rest) = strip_word(bytes, b"carrier ") {
        return carrier_of(rest);
    }
    if let Some(rest) = strip_word(bytes, b"release ") {
        return release_of(rest);
    }
    match strip_word(bytes, b"rebind ") {
        Some(rest) => rebind_of(rest),
        None => None,
    }
}

/// An input without bytes.
#[tactic(auto, unfolding(crate::specs::TurnFields::event_at, crate::specs::TurnFields::plain_at))]
fn event_of(bytes: &[u8]) -> Option<Event>
    ensures { option_map without_bytes result ≡ event_at bytes.now }
{
    match strip_word(bytes, b"dup ") {
        Some(rest) => duplicate_of(rest),
        None => plain_of(bytes),
    }
}

/// What came, with the bytes of a frame.
#[tactic(auto, unfolding(crate::specs::TurnFields::came_at, crate::specs::TurnFields::event_at))]
fn came_of(alloc: Global, bytes: &[u8]) -> Result<Option<(Event, Vec<u8>)>, NoMemory>
    ensures { IfOk result (λ o. option_map (λ p. (p.0, p.1.items)) o ≡ came_at bytes.now) }
{
    match strip_word(bytes, b"frame ") {
        Some(rest) => frame_of(alloc, rest),
        None => match event_of(bytes) {
            Some(event) => Ok(Some((event, Vec::new(alloc)))),
            None => Ok(None),
        },
    }
}

/// What a turn is given.
#[tactic(auto, unfolding(crate::specs::TurnFields::turn_at))]
pub fn turn_of<'a>(alloc: Global, bytes: &[u8]) -> Result<Option<ToldLine<'a>>, NoMemory>
    ensures { IfOk result (λ o. option_map line_of o ≡ turn_at bytes.now) }
{
    let Some((at, rest)) = moment_field_of(bytes) else {
        return Ok(None);
    };
    let Some((salt, rest)) = salt_field_of(rest) else {
        return Ok(None);
    };
    let Some((event, bytes)) = came_of(alloc, rest)? else {
        return Ok(None);
    };
    Ok(Some(ToldLine::Turn {
        at,
        salt,
        event,
        bytes,
    }))
}
