//! A server's message in a frame.

ghost use Rattle.std.specs.Prelude.{◌≡◌};
ghost use Rattle.std.specs.Option.{option_map};
ghost use Rattle.frame_link.specs.Frames.{shown};
ghost use Rattle.udp_frame.specs.Udp6Frames.{shown6};
ghost use Rattle.v6_message.specs.Replies.{message6_in};
ghost use Rattle.v6_message.specs.Shown.{message_shown};
ghost use Rattle.v6_frames.specs.Heard.{heard6_in, heard_shown, is_for, is_to, message_for, message_to};

use frame_link::{EthView, eth_of};
use net_types::Mac;
use udp_frame::dhcp6::CLIENT_PORT;
use udp_frame::{KIND_IPV6, Udp6View, link_local_of, udp6_of};
use v6_message::{Msg6, read6};

/// A server's message, and the hardware address that it came from.
#[derive(Clone, Copy)]
pub struct Heard6<'a> {
    pub source: Mac,
    pub message: Msg6<'a>,
}

/// The message that a frame has for the client at the interface with this hardware address. None where the
/// frame goes to another host, isn't of IPv6, holds no whole datagram or one to another address than the
/// interface's link-local one or to another port, or where the datagram isn't a server's message
/// (RFC 8415, sections 7.2 and 18.2.9).
#[tactic(auto, unfolding(crate::specs::Heard::heard6_in))]
pub fn heard6_of<'a>(mac: Mac, frame: &'a [u8]) -> Option<Heard6<'a>>
    ensures { option_map heard_shown result ≡ heard6_in mac frame.now }
{
    let frame = eth_of(frame)?;
    message_for(mac, frame)
}

fn message_for<'a>(mac: Mac, frame: EthView<'a>) -> Option<Heard6<'a>>
    ensures { option_map heard_shown result ≡ message_for mac (shown frame.entry) }
{
    if !is_for(mac, &frame) {
        return None;
    }
    let datagram = udp6_of(frame.body)?;
    message_to(mac, frame.from, datagram)
}

fn is_for(mac: Mac, frame: &EthView) -> bool
    ensures { result ≡ is_for mac (shown frame.now) }
{
    frame.to == mac && frame.kind == KIND_IPV6
}

fn message_to<'a>(mac: Mac, source: Mac, datagram: Udp6View<'a>) -> Option<Heard6<'a>>
    ensures { option_map heard_shown result ≡ message_to mac source (shown6 datagram.entry) }
{
    if !is_to(mac, &datagram) {
        return None;
    }
    let message = message_of(datagram.payload)?;
    Some(Heard6 { source, message })
}

fn is_to(mac: Mac, datagram: &Udp6View) -> bool
    ensures { result ≡ is_to mac (shown6 datagram.now) }
{
    datagram.to == link_local_of(mac) && datagram.to_port == CLIENT_PORT
}

#[tactic(auto, unfolding(v6_message::specs::Replies::message6_in))]
fn message_of(payload: &[u8]) -> Option<Msg6<'_>>
    ensures { option_map message_shown result ≡ message6_in payload.now }
{
    match read6(payload) {
        Ok(message) => Some(message),
        Err(_) => None,
    }
}
