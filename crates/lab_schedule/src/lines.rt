//! The lines of schedules, read.
ghost use Rattle.std.specs.Prelude.{◌≡◌};
ghost use Rattle.std.specs.List.{list_all};
ghost use Rattle.lab_schedule.specs.LineReading.{carrier_at, event_at, give_at, hear_at, is_on, lacks_feed, pool_at, release_at, tick_at};

use crate::event::LabEvent;
use lab_peer::Pool;
use net_types::{ip4_of, number_of, split_at_byte, strip_word, u64_of};
use replay_text::{moment_field_of, salt_field_of, switch_of};
use row_texts::{iface_field_of, iface_of};

/// One more than the longest lease, in seconds; that one never ends.
const LEASE_LIMIT: u64 = 0x1_0000_0000;

/// Whether the bytes have no line feed.
pub fn lacks_feed(text: &[u8]) -> bool
    ensures { result ≡ lacks_feed text.now }
{
    text.iter().all(|byte| *byte != b'\n')
}

/// The addresses that the peer gives out, and for how many seconds.
#[tactic(auto, unfolding(crate::specs::LineReading::pool_at))]
pub fn pool_of(bytes: &[u8]) -> Option<Pool>
    ensures { result ≡ pool_at bytes.now }
{
    let (low, rest) = split_at_byte(bytes, b' ')?;
    let low = ip4_of(low)?;
    let (high, rest) = split_at_byte(rest, b' ')?;
    let high = ip4_of(high)?;
    let lease = number_of(rest, LEASE_LIMIT)? as u32;
    let pool = Pool { low, high, lease };
    if pool.is_valid() { Some(pool) } else { None }
}

fn tick_of(bytes: &[u8]) -> Option<LabEvent>
    ensures { result ≡ tick_at bytes.now }
{
    let (at, rest) = moment_field_of(bytes)?;
    let salt = u64_of(rest)?;
    Some(LabEvent::Tick { at, salt })
}

fn carrier_of(bytes: &[u8]) -> Option<LabEvent>
    ensures { result ≡ carrier_at bytes.now }
{
    let (at, rest) = moment_field_of(bytes)?;
    let (salt, rest) = salt_field_of(rest)?;
    let (iface, rest) = iface_field_of(rest)?;
    let up = switch_of(rest)?;
    Some(LabEvent::Carrier {
        at,
        salt,
        iface,
        up,
    })
}

fn release_of(bytes: &[u8]) -> Option<LabEvent>
    ensures { result ≡ release_at bytes.now }
{
    let (at, rest) = moment_field_of(bytes)?;
    let (salt, rest) = salt_field_of(rest)?;
    let iface = iface_of(rest)?;
    Some(LabEvent::Release { at, salt, iface })
}

fn give_of(bytes: &[u8]) -> Option<LabEvent>
    ensures { result ≡ give_at bytes.now }
{
    let (at, rest) = moment_field_of(bytes)?;
    let (salt, rest) = salt_field_of(rest)?;
    let (iface, rest) = iface_field_of(rest)?;
    let frame = u64_of(rest)?;
    Some(LabEvent::Give {
        at,
        salt,
        iface,
        frame,
    })
}

fn hear_of(bytes: &[u8]) -> Option<LabEvent>
    ensures { result ≡ hear_at bytes.now }
{
    let (at, rest) = moment_field_of(bytes)?;
    let frame = u64_of(rest)?;
    Some(LabEvent::Hear { at, frame })
}

/// What comes next, by a line after the start.
#[tactic(auto, unfolding(crate::specs::LineReading::event_at))]
pub fn event_of(line: &[u8]) -> Option<LabEvent>
    ensures { result ≡ event_at line.now }
{
    if let Some(rest) = strip_word(line, b"tick ") {
        return tick_of(rest);
    }
    if let Some(rest) = strip_word(line, b"give ") {
        return give_of(rest);
    }
    if let Some(rest) = strip_word(line, b"peer ") {
        return hear_of(rest);
    }
    if let Some(rest) = strip_word(line, b"carrier ") {
        return carrier_of(rest);
    }
    match strip_word(line, b"release ") {
        Some(rest) => release_of(rest),
        None => None,
    }
}

/// Whether it names one of so many interfaces, or none.
pub fn is_on(count: u32, event: LabEvent) -> bool
    ensures { result ≡ is_on count event }
{
    match event {
        LabEvent::Tick { .. } => true,
        LabEvent::Carrier { iface, .. } => iface.number <= count,
        LabEvent::Release { iface, .. } => iface.number <= count,
        LabEvent::Give { iface, .. } => iface.number <= count,
        LabEvent::Hear { .. } => true,
    }
}
