//! The form of the datagrams that carry frames and other events of interfaces: how they are read, and how a frame's
//! is made.

ghost use Rattle.std.specs.Prelude.{◌≡◌, ◌≤◌, length, take, drop, min, IfOk};
ghost use Rattle.loop_link.specs.Datagrams.{is_interface, frame_said, carrier_by, carrier_said, duplicate_said, alone, said_of_interface, said_by_kind, event_said, frame_datagram};
ghost use Rattle.world.specs.LinkCalls.{frame_len, cut_event};
ghost use Rattle.loop_link.specs.declared.datagrams.TheConstants.{HEAD};

use net_types::ip6_field;
use std::alloc::{AllocError, Global};
use world::Event;

/// How many bytes a frame has at most.
pub(crate) const FRAME_LIMIT: usize = 2048;

/// How many bytes stand before a frame in its datagram: its kind and its interface.
pub(crate) const HEAD: usize = 2;

/// A frame that came in, or that is sent; its bytes follow.
pub(crate) const FRAME: u8 = 1;

/// The carrier of an interface came or went: 1 or 0 follows.
pub(crate) const CARRIER: u8 = 2;

/// Another node has an address; its sixteen bytes follow.
pub(crate) const DUPLICATE: u8 = 3;

/// The leases of an interface are to be given back.
pub(crate) const RELEASE: u8 = 4;

/// The leases of an interface are to be confirmed with any server.
pub(crate) const REBIND: u8 = 5;

/// The daemon is to end; the interface is 0.
pub(crate) const STOP: u8 = 6;

fn is_interface(iface: u8) -> bool
    ensures { result ≡ is_interface iface }
{
    1 <= iface && iface <= 64
}

fn frame_said(iface: u32, frame: &[u8]) -> Event
    ensures { result ≡ frame_said iface frame.now }
{
    if frame.len() <= FRAME_LIMIT {
        Event::Frame {
            iface,
            len: frame.len(),
        }
    } else {
        Event::Quiet
    }
}

fn carrier_by(iface: u32, up: u8) -> Event
    ensures { result ≡ carrier_by iface up }
{
    match up {
        0 => Event::Carrier { iface, up: false },
        1 => Event::Carrier { iface, up: true },
        _ => Event::Quiet,
    }
}

fn carrier_said(iface: u32, rest: &[u8]) -> Event
    ensures { result ≡ carrier_said iface rest.now }
{
    match rest {
        [up] => carrier_by(iface, *up),
        _ => Event::Quiet,
    }
}

fn duplicate_said(iface: u32, rest: &[u8]) -> Event
    ensures { result ≡ duplicate_said iface rest.now }
{
    if rest.len() == 16 {
        Event::Duplicate {
            iface,
            addr: ip6_field(rest, 0),
        }
    } else {
        Event::Quiet
    }
}

/// The event, where no more bytes follow.
fn alone(event: Event, rest: &[u8]) -> Event
    ensures { result ≡ alone event rest.now }
{
    if rest.is_empty() { event } else { Event::Quiet }
}

fn said_of_interface(kind: u8, iface: u32, rest: &[u8]) -> Event
    ensures { result ≡ said_of_interface kind iface rest.now }
{
    match kind {
        FRAME => frame_said(iface, rest),
        CARRIER => carrier_said(iface, rest),
        DUPLICATE => duplicate_said(iface, rest),
        RELEASE => alone(Event::Release { iface }, rest),
        REBIND => alone(Event::Rebind { iface }, rest),
        _ => Event::Quiet,
    }
}

fn said_by_kind(kind: u8, iface: u8, rest: &[u8]) -> Event
    ensures { result ≡ said_by_kind kind iface rest.now }
{
    if is_interface(iface) {
        return said_of_interface(kind, u32::from(iface), rest);
    }
    if kind == STOP && iface == 0 {
        return alone(Event::Stop, rest);
    }
    Event::Quiet
}

/// The event; the bytes of its frame go to the front of `buf`, cut to its room.
fn put_frame(event: Event, frame: &[u8], buf: &mut [u8]) -> Event
    ensures event { result ≡ cut_event event (length frame.now) (length buf.old) }
    ensures front { take (frame_len result) buf.new ≡ take (frame_len result) frame.now }
    ensures room { frame_len result ≤ length buf.new }
{
    match event {
        Event::Frame { iface, .. } => {
            let len = fill_front(buf, frame);
            Event::Frame { iface, len }
        }
        event => event,
    }
}

/// Puts as many of the first bytes as there is room for at the front of a buffer, and says how many.
fn fill_front(buf: &mut [u8], bytes: &[u8]) -> usize
    ensures len { result ≡ min (length bytes.now) (length buf.old) }
    ensures room { result ≤ length buf.new }
    ensures front { take result buf.new ≡ take result bytes.now }
{
    let len = bytes.len().min(buf.len());
    buf[..len].copy_from_slice(&bytes[..len]);
    len
}

/// What a datagram says; the bytes of its frame go to the front of `buf`, cut to its room. One of no form says nothing.
pub(crate) fn taken(datagram: &[u8], buf: &mut [u8]) -> Event
    ensures event { result ≡ cut_event (event_said datagram.now) (length (drop HEAD datagram.now)) (length buf.old) }
    ensures front { take (frame_len result) buf.new ≡ take (frame_len result) (drop HEAD datagram.now) }
    ensures room { frame_len result ≤ length buf.new }
{
    match datagram {
        [kind, iface, rest @ ..] => put_frame(said_by_kind(*kind, *iface, rest), rest, buf),
        _ => Event::Quiet,
    }
}

/// The datagram of a frame that is sent.
pub(crate) fn frame_datagram(alloc: Global, iface: u8, frame: &[u8]) -> Result<Vec<u8>, AllocError>
    ensures { IfOk result (λ datagram. datagram.items ≡ frame_datagram iface frame.now) }
{
    let mut datagram = vec![in alloc; FRAME, iface]?;
    datagram.extend_from_slice(frame)?;
    Ok(datagram)
}
