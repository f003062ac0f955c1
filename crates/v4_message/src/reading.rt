//! A server's reply, read.

ghost use Rattle.std.specs.Prelude.{◌≡◌, ◌≤◌, ◌<◌, ◌+◌, ◌^◌, length, Some, None, IfOk, IfErr};
ghost use Rattle.v4_options.specs.Overload.{overload_in};
ghost use Rattle.v4_options.specs.OptionViews.{area_bytes, view_instances};
ghost use Rattle.v4_message.specs.Message.{is_reply, has_cookie, options_area, file_area, sname_area, message_instances, malformed_place, kind_among};
ghost use Rattle.v4_message.specs.Replies.{refusal_of, place_in_message, IsReadAs};
ghost use Rattle.v4_message.specs.Messages.{message_in, message_of};

use crate::field::{
    BOOT_REPLY, CHADDR, COOKIE, ETHERNET, FILE, FILE_LEN, MAC_LEN, MAGIC_COOKIE, OPTIONS, SNAME,
    SNAME_LEN, XID, YIADDR,
};
use crate::kind::{MessageKind, kind_with};
use net_types::{Ip4, Mac, field, ip4_field, mac_field, u32_field};
use thiserror::Error;
use v4_options::{Areas, Malformed, OptionView, byte_at, code, options_of};

/// Why bytes aren't a server's message: the first of these that holds.
#[derive(Clone, Copy, Debug, PartialEq, Eq, Error)]
pub enum Bad4 {
    /// There are fewer bytes than the fixed fields take.
    #[error("Short")]
    Short,
    /// It isn't a reply to an Ethernet client.
    #[error("NotReply")]
    NotReply,
    /// The magic cookie is missing (RFC 2131, section 3).
    #[error("NoCookie")]
    NoCookie,
    /// An area is cut within an option, the first of which begins at this byte.
    #[error("Malformed")]
    Malformed { place: usize },
    /// The message type isn't one byte, the number of a type (RFC 2132, section 9.6).
    #[error("NoType")]
    NoType,
}

/// A server's message.
#[derive(Clone, Copy)]
pub struct Msg4<'a> {
    pub kind: MessageKind,
    pub xid: u32,
    pub yiaddr: Ip4,
    pub chaddr: Mac,
    pub options: OptionView<'a>,
}

fn is_reply(payload: &[u8]) -> bool
    requires { 240 ≤ length payload.now }
    ensures { result ≡ is_reply payload.now }
{
    payload[0] == BOOT_REPLY && payload[1] == ETHERNET && payload[2] == MAC_LEN
}

fn has_cookie(payload: &[u8]) -> bool
    requires { 240 ≤ length payload.now }
    ensures { result ≡ has_cookie payload.now }
{
    payload[COOKIE] == MAGIC_COOKIE[0]
        && payload[COOKIE + 1] == MAGIC_COOKIE[1]
        && payload[COOKIE + 2] == MAGIC_COOKIE[2]
        && payload[COOKIE + 3] == MAGIC_COOKIE[3]
}

fn areas_of(payload: &[u8]) -> Areas<'_>
    requires { 240 ≤ length payload.now }
    ensures options { result.options.now ≡ options_area payload.now }
    ensures file { result.file.now ≡ file_area payload.now }
    ensures sname { result.sname.now ≡ sname_area payload.now }
{
    let (_, options) = payload.split_at(OPTIONS);
    Areas {
        options,
        file: field(payload, FILE, FILE_LEN),
        sname: field(payload, SNAME, SNAME_LEN),
    }
}

/// The message type that the options tell.
fn kind_of(options: &OptionView) -> Option<MessageKind>
    ensures { result ≡ kind_among (view_instances options.now) }
{
    kind_with(byte_at(options, code::MESSAGE_TYPE)?)
}

/// The place in the message of a place in its three areas laid end to end, of which the first has `options` bytes.
fn place_of(options: usize, place: usize) -> usize
    requires within { place < options + 192 }
    requires fits { options + 240 < 2 ^ 64 }
    ensures { result ≡ place_in_message options place }
{
    if place < options {
        return OPTIONS + place;
    }
    let after = place - options;
    if after < FILE_LEN {
        return FILE + after;
    }
    SNAME + (after - FILE_LEN)
}

/// The options of a message, or the place in it of the first malformed one.
fn options_in<'a>(payload: &'a [u8]) -> Result<OptionView<'a>, Malformed>
    requires { 240 ≤ length payload.now }
    ensures same { IfOk result
        (λ view. area_bytes view.areas
        ≡ (options_area payload.now, file_area payload.now, sname_area payload.now)) }
    ensures overload { IfOk result (λ view. view.overload ≡ overload_in (options_area payload.now)) }
    ensures instances { IfOk result (λ view. view_instances view ≡ message_instances payload.now) }
    ensures whole { IfOk result (λ _. malformed_place payload.now ≡ None) }
    ensures malformed { IfErr result (λ malformed. malformed_place payload.now ≡ Some malformed.place) }
{
    let options = payload.len() - OPTIONS;
    match options_of(areas_of(payload)) {
        Ok(view) => Ok(view),
        Err(malformed) => Err(Malformed {
            place: place_of(options, malformed.place),
        }),
    }
}

/// The server's message that the bytes are (RFC 2131, section 2). A refusal is the first fault in the order of `Bad4`;
/// the areas of options are read in the order options, file, sname.
pub fn read4<'a>(payload: &'a [u8]) -> Result<Msg4<'a>, Bad4>
    ensures refused { IfErr result (λ bad. refusal_of payload.now ≡ Some bad) }
    ensures accepted { IfOk result (λ _. refusal_of payload.now ≡ None) }
    ensures read { IfOk result (λ message. IsReadAs payload.now message) }
    ensures message { IfOk result (λ message. message_in payload.now ≡ Some (message_of message)) }
    ensures no_message { IfErr result (λ _. message_in payload.now ≡ None) }
{
    checked(payload)
}

/// The message, field by field.
fn checked<'a>(payload: &'a [u8]) -> Result<Msg4<'a>, Bad4>
    ensures refused { IfErr result (λ bad. refusal_of payload.now ≡ Some bad) }
    ensures accepted { IfOk result (λ _. refusal_of payload.now ≡ None) }
    ensures read { IfOk result (λ message. IsReadAs payload.now message) }
{
    if payload.len() < OPTIONS {
        return Err(Bad4::Short);
    }
    if !is_reply(payload) {
        return Err(Bad4::NotReply);
    }
    if !has_cookie(payload) {
        return Err(Bad4::NoCookie);
    }
    let options = match options_in(payload) {
        Ok(options) => options,
        Err(malformed) => return Err(Bad4::Malformed {
            place: malformed.place,
        }),
    };
    let Some(kind) = kind_of(&options) else {
        return Err(Bad4::NoType);
    };
    Ok(Msg4 {
        kind,
        xid: u32_field(payload, XID),
        yiaddr: ip4_field(payload, YIADDR),
        chaddr: mac_field(payload, CHADDR),
        options,
    })
}
