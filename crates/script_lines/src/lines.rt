//! The words of the lines `if`, `fail` and `turn`, read.
ghost use Rattle.std.specs.Prelude.{◌≡◌, ◌^◌, ◌<◌, option_map, IfOk};
ghost use Rattle.net_types.specs.NameText.{name_at};
ghost use Rattle.net_types.specs.Cutting.{field_at};
ghost use Rattle.script_lines.specs.LineReading.{spec_at, call_at, failing_at, fail_at};
ghost use Rattle.script_lines.specs.TurnReading.{moment_at, salt_at, turn_at};
ghost use Rattle.script_lines.specs.TurnReading.{without_bytes, frame_bytes_at, frame_at, switch_at, lone_at, carrier_at, release_at, rebind_at, plain_at, input_at, duplicate_at, came_at};
ghost use Rattle.script_lines.specs.ScriptContent.{given_of};

use crate::script::TurnLine;
use net_types::{
    IfSpec, Name, NoMemory, end_of, hex_of, ip6_of, mac_of, name_of, number_of, split_at_byte,
    strip_word, u64_of,
};
use row_texts::{iface_field_of, iface_of};
use script_model::{FailDevice, FailLine};
use std::alloc::Global;
use world::{Event, Wake};

/// One more than the last moment, in milliseconds since 1970.
const MOMENT_LIMIT: u64 = 1_000_000_000_000_000;
/// The most bytes of a frame.
const FRAME_ROOM: usize = 2048;

fn name_field_of(bytes: &[u8]) -> Option<(Name, &[u8])>
    ensures { option_map (λ p. (p.0, p.1.now)) result ≡ field_at 32 name_at bytes.now }
{
    let (part, rest) = split_at_byte(bytes, b' ')?;
    let name = name_of(part)?;
    Some((name, rest))
}

/// An interface: its number, name and hardware address.
#[tactic(auto, unfolding(crate::specs::LineReading::spec_at))]
pub fn spec_of(bytes: &[u8]) -> Option<IfSpec>
    ensures { result ≡ spec_at bytes.now }
{
    let (index, rest) = iface_field_of(bytes)?;
    let (name, rest) = name_field_of(rest)?;
    let mac = mac_of(rest)?;
    Some(IfSpec { index, name, mac })
}

/// The number of a call, from 1.
#[tactic(auto, unfolding(crate::specs::LineReading::call_at))]
fn call_of(bytes: &[u8]) -> Option<u64>
    ensures { result ≡ call_at bytes.now }
{
    let number = u64_of(bytes)?;
    if number >= 1 { Some(number) } else { None }
}

fn failing_of(device: FailDevice, bytes: &[u8]) -> Option<FailLine>
    ensures { result ≡ failing_at device bytes.now }
{
    let number = call_of(bytes)?;
    Some(FailLine { device, number })
}

/// A call of a device that fails.
#[tactic(auto, unfolding(crate::specs::LineReading::fail_at))]
pub fn fail_of(bytes: &[u8]) -> Option<FailLine>
    ensures { result ≡ fail_at bytes.now }
{
    if let Some(rest) = strip_word(bytes, b"link ") {
        return failing_of(FailDevice::Link, rest);
    }
    if let Some(rest) = strip_word(bytes, b"store ") {
        return failing_of(FailDevice::Store, rest);
    }
    if let Some(rest) = strip_word(bytes, b"host ") {
        return failing_of(FailDevice::Host, rest);
    }
    match strip_word(bytes, b"hooks ") {
        Some(rest) => failing_of(FailDevice::Hooks, rest),
        None => None,
    }
}

#[tactic(auto, unfolding(crate::specs::TurnReading::moment_at))]
fn moment_of(bytes: &[u8]) -> Option<u64>
    ensures { result ≡ moment_at bytes.now }
{
    number_of(bytes, MOMENT_LIMIT)
}

/// The moment before the first blank, and the text after it.
pub fn moment_field_of(bytes: &[u8]) -> Option<(u64, &[u8])>
    ensures { option_map (λ p. (p.0, p.1.now)) result ≡ field_at 32 moment_at bytes.now }
{
    let (part, rest) = split_at_byte(bytes, b' ')?;
    let moment = moment_of(part)?;
    Some((moment, rest))
}

#[tactic(auto, unfolding(crate::specs::TurnReading::salt_at))]
fn salt_of(bytes: &[u8]) -> Option<u64>
    ensures { result ≡ salt_at bytes.now }
{
    u64_of(bytes)
}

/// The random word before the first blank, and the text after it.
pub fn salt_field_of(bytes: &[u8]) -> Option<(u64, &[u8])>
    ensures { option_map (λ p. (p.0, p.1.now)) result ≡ field_at 32 salt_at bytes.now }
{
    let (part, rest) = split_at_byte(bytes, b' ')?;
    let salt = salt_of(part)?;
    Some((salt, rest))
}

/// Whether the carrier came, `up`, or went, `down`.
#[tactic(auto, unfolding(crate::specs::TurnReading::switch_at))]
pub fn switch_of(bytes: &[u8]) -> Option<bool>
    ensures { result ≡ switch_at bytes.now }
{
    if bytes == b"up".as_slice() {
        Some(true)
    } else if bytes == b"down".as_slice() {
        Some(false)
    } else {
        None
    }
}

fn lone_of(bytes: &[u8], event: Event) -> Option<Event>
    ensures { option_map without_bytes result ≡ lone_at event bytes.now }
{
    end_of(bytes)?;
    Some(event)
}

fn carrier_of(bytes: &[u8]) -> Option<Event>
    ensures { option_map without_bytes result ≡ carrier_at bytes.now }
{
    let (iface, rest) = iface_field_of(bytes)?;
    let up = switch_of(rest)?;
    Some(Event::Carrier {
        iface: iface.number,
        up,
    })
}

fn release_of(bytes: &[u8]) -> Option<Event>
    ensures { option_map without_bytes result ≡ release_at bytes.now }
{
    let iface = iface_of(bytes)?.number;
    Some(Event::Release { iface })
}

fn rebind_of(bytes: &[u8]) -> Option<Event>
    ensures { option_map without_bytes result ≡ rebind_at bytes.now }
{
    let iface = iface_of(bytes)?.number;
    Some(Event::Rebind { iface })
}

/// An input without bytes.
#[tactic(auto, unfolding(crate::specs::TurnReading::plain_at))]
fn plain_of(bytes: &[u8]) -> Option<Event>
    ensures { option_map without_bytes result ≡ plain_at bytes.now }
{
    if let Some(rest) = strip_word(bytes, b"quiet") {
        return lone_of(rest, Event::Quiet);
    }
    if let Some(rest) = strip_word(bytes, b"stop") {
        return lone_of(rest, Event::Stop);
    }
    if let Some(rest) = strip_word(bytes, b"carrier ") {
        return carrier_of(rest);
    }
    if let Some(rest) = strip_word(bytes, b"release ") {
        return release_of(rest);
    }
    match strip_word(bytes, b"rebind ") {
        Some(rest) => rebind_of(rest),
        None => None,
    }
}

/// Bytes that a frame has room for.
#[tactic(auto, unfolding(crate::specs::TurnReading::frame_bytes_at))]
fn frame_bytes_of(alloc: Global, bytes: &[u8]) -> Result<Option<Vec<u8>>, NoMemory>
    ensures { IfOk result (λ o. option_map (λ v. v.items) o ≡ frame_bytes_at bytes.now) }
{
    let Some(frame) = hex_of(alloc, bytes)? else {
        return Ok(None);
    };
    if frame.len() <= FRAME_ROOM {
        Ok(Some(frame))
    } else {
        Ok(None)
    }
}

#[tactic(auto, unfolding(crate::specs::TurnReading::frame_at))]
fn frame_of(alloc: Global, bytes: &[u8]) -> Result<Option<(Event, Vec<u8>)>, NoMemory>
    ensures { IfOk result (λ o. option_map (λ p. (p.0, p.1.items)) o ≡ frame_at bytes.now) }
{
    let Some((iface, rest)) = iface_field_of(bytes) else {
        return Ok(None);
    };
    let Some(frame) = frame_bytes_of(alloc, rest)? else {
        return Ok(None);
    };
    let event = Event::Frame {
        iface: iface.number,
        len: frame.len(),
    };
    Ok(Some((event, frame)))
}

/// An input of one text, with the bytes of a frame.
#[tactic(auto, unfolding(crate::specs::TurnReading::input_at, crate::specs::TurnReading::plain_at))]
fn input_of(alloc: Global, bytes: &[u8]) -> Result<Option<(Event, Vec<u8>)>, NoMemory>
    ensures { IfOk result (λ o. option_map (λ p. (p.0, p.1.items)) o ≡ input_at bytes.now) }
{
    match strip_word(bytes, b"frame ") {
        Some(rest) => frame_of(alloc, rest),
        None => match plain_of(bytes) {
            Some(event) => Ok(Some((event, Vec::new(alloc)))),
            None => Ok(None),
        },
    }
}

/// An interface and the address that another node there has, in any spelling.
fn duplicate_of(bytes: &[u8]) -> Option<Event>
    ensures { option_map without_bytes result ≡ duplicate_at bytes.now }
{
    let (iface, rest) = iface_field_of(bytes)?;
    let addr = ip6_of(rest)?;
    Some(Event::Duplicate {
        iface: iface.number,
        addr,
    })
}

/// What came, with the bytes of a frame.
#[tactic(auto, unfolding(crate::specs::TurnReading::came_at))]
fn came_of(alloc: Global, bytes: &[u8]) -> Result<Option<(Event, Vec<u8>)>, NoMemory>
    ensures { IfOk result (λ o. option_map (λ p. (p.0, p.1.items)) o ≡ came_at bytes.now) }
{
    match strip_word(bytes, b"dup ") {
        Some(rest) => match duplicate_of(rest) {
            Some(event) => Ok(Some((event, Vec::new(alloc)))),
            None => Ok(None),
        },
        None => input_of(alloc, bytes),
    }
}

/// What a turn is given.
#[tactic(auto, unfolding(crate::specs::TurnReading::turn_at))]
pub fn turn_of(alloc: Global, bytes: &[u8]) -> Result<Option<TurnLine>, NoMemory>
    ensures { IfOk result (λ o. option_map given_of o ≡ turn_at bytes.now) }
{
    let Some((at, rest)) = moment_field_of(bytes) else {
        return Ok(None);
    };
    let Some((salt, rest)) = salt_field_of(rest) else {
        return Ok(None);
    };
    let Some((event, bytes)) = came_of(alloc, rest)? else {
        return Ok(None);
    };
    Ok(Some(TurnLine {
        wake: Wake { at, salt, event },
        bytes,
    }))
}
