//! A server's message in a frame.

ghost use Rattle.std.specs.Prelude.{◌≡◌};
ghost use Rattle.std.specs.Option.{option_map};
ghost use Rattle.frame_link.specs.Frames.{shown};
ghost use Rattle.udp_frame.specs.Udp4Frames.{shown4};
ghost use Rattle.v4_frames.specs.Heard.{heard4_in, heard_shown, is_for, message_for, message_to};

use crate::sent::{CLIENT_PORT, EVERY_MAC};
use frame_link::{EthView, eth_of};
use net_types::Mac;
use udp_frame::{KIND_IPV4, Udp4View, udp4_of};
use v4_message::{Msg4, read4};

/// A server's message, and the hardware address that it came from.
#[derive(Clone, Copy)]
pub struct Heard4<'a> {
    pub source: Mac,
    pub message: Msg4<'a>,
}

/// The message that a frame has for the client at the interface with this hardware address. None where the
/// frame goes to another host, isn't of IPv4, holds no whole datagram or one to another port, or where the
/// datagram isn't a server's message (RFC 2131, section 4.1).
#[tactic(auto, unfolding(crate::specs::Heard::heard4_in))]
pub fn heard4_of<'a>(mac: Mac, frame: &'a [u8]) -> Option<Heard4<'a>>
    ensures { option_map heard_shown result ≡ heard4_in mac frame.now }
{
    let frame = eth_of(frame)?;
    message_for(mac, frame)
}

fn message_for<'a>(mac: Mac, frame: EthView<'a>) -> Option<Heard4<'a>>
    ensures { option_map heard_shown result ≡ message_for mac (shown frame.entry) }
{
    if !is_for(mac, &frame) {
        return None;
    }
    let datagram = udp4_of(frame.body)?;
    message_to(frame.from, datagram)
}

fn is_for(mac: Mac, frame: &EthView) -> bool
    ensures { result ≡ is_for mac (shown frame.now) }
{
    (frame.to == mac || frame.to == EVERY_MAC) && frame.kind == KIND_IPV4
}

fn message_to<'a>(source: Mac, datagram: Udp4View<'a>) -> Option<Heard4<'a>>
    ensures { option_map heard_shown result ≡ message_to source (shown4 datagram.entry) }
{
    if datagram.to_port != CLIENT_PORT {
        return None;
    }
    match read4(datagram.payload) {
        Ok(message) => Some(Heard4 { source, message }),
        Err(_) => None,
    }
}
