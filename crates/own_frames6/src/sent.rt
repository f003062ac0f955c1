//! A client's message in a frame.

ghost use Rattle.std.specs.Prelude.{◌≡◌, IfOk};
ghost use Rattle.std.specs.Option.{option_map};
ghost use Rattle.v6_frames.specs.Spelled.{sent6_in};
ghost use Rattle.own_frames6.specs.Shown.{has_room, is_sent, sent_shown};

use crate::framing::is_framed;
use crate::reading::{OPTIONS, SaidView, seems};
use crate::writing::is_spelled;
use net_types::{Mac, NoMemory, mac_field, u16_field};
use std::alloc::Global;
use udp_frame::KIND_IPV6;

/// The bytes before the data of a datagram: the headers of Ethernet, IPv6 and UDP.
const HEADERS_LEN: usize = 62;
// places in these headers
const FROM_MAC: usize = 6;

const KIND: usize = 12;

/// A client's message, and the hardware address of the interface that says it.
#[derive(Clone, Copy)]
pub struct SentView<'a> {
    pub mac: Mac,
    pub said: SaidView<'a>,
}

/// Whether the frame is that of the message, which stands behind the headers.
fn is_sent(alloc: Global, frame: &[u8], message: &[u8], sent: &SentView) -> Result<bool, NoMemory>
    ensures { IfOk result (λ same. same ≡ is_sent frame.now message.now (sent_shown sent.now)) }
{
    if !is_spelled(alloc, message, &sent.said)? {
        return Ok(false);
    }
    is_framed(alloc, frame, sent.mac, message)
}

/// Whether a frame has room for a message, and is of IPv6.
fn has_room(frame: &[u8]) -> bool
    ensures { result ≡ has_room frame.now }
{
    frame.len() >= HEADERS_LEN + OPTIONS && u16_field(frame, KIND) == KIND_IPV6
}

/// The message whose frame this is, byte for byte. A frame of another kind than IPv6's, or one too short for a
/// message, is no client's, and costs nothing. Only want of memory is an error.
pub fn sent6_of(alloc: Global, frame: &[u8]) -> Result<Option<SentView<'_>>, NoMemory>
    ensures { IfOk result (λ sent. option_map sent_shown sent ≡ sent6_in frame.now) }
{
    if !has_room(frame) {
        return Ok(None);
    }
    let (_, message) = frame.split_at(HEADERS_LEN);
    let Some(said) = seems(message) else {
        return Ok(None);
    };
    let sent = SentView {
        mac: mac_field(frame, FROM_MAC),
        said,
    };
    if is_sent(alloc, frame, message, &sent)? {
        return Ok(Some(sent));
    }
    Ok(None)
}
