//! What a frame seems to say, by its fields, and whether it is the frame of that.

ghost use Rattle.std.specs.Prelude.{◌≡◌, ◌≢◌, ◌≤◌, length, drop, bytes_eq, IfOk, IfSome, IfNone, None, Some, option_and_then};
ghost use Rattle.v4_options.specs.declared.code.TheConstants.{MESSAGE_TYPE};
ghost use Rattle.v4_options.specs.OptionValue.{byte_of};
ghost use Rattle.v4_options.specs.OptionViews.{view_instances};
ghost use Rattle.v4_message.specs.Message.{file_area, malformed_place, message_instances, options_area, sname_area};
ghost use Rattle.v4_message.specs.Requests.{AskFits, ask_content};
ghost use Rattle.v4_frames.specs.Spelled.{ends_in, frame_of, kind_numbered, said_as, seen_in};
ghost use Rattle.client_frames.specs.Unsaid.{IsUnsaid};

use net_types::{NoMemory, field, ip4_field, mac_field, u16_field, u32_field};
use std::alloc::Global;
use udp_frame::Ends4;
use v4_frames::{Sent4, build4};
use v4_message::{Ask4, Kind4, Said4, kind};
use v4_options::{Areas, OptionView, addr_at, byte_at, code, options_of};

/// The bytes before the data of a datagram: the headers of Ethernet, IPv4 and UDP.
const HEADERS_LEN: usize = 42;
// places in these headers
const TO_MAC: usize = 0;

const FROM_MAC: usize = 6;

const FROM: usize = 26;

const TO: usize = 30;
// places in a message (RFC 2131, section 2)
const XID: usize = 4;

const SECS: usize = 8;

const FLAGS: usize = 10;

const CIADDR: usize = 12;

const CHADDR: usize = 28;

const SNAME: usize = 44;

const SNAME_LEN: usize = 64;

const FILE: usize = 108;

const FILE_LEN: usize = 128;

const OPTIONS: usize = 240;

/// What a frame seems to say, and the options that it says it with.
#[derive(Clone, Copy)]
pub struct Seen4<'a> {
    pub sent: Sent4,
    pub options: OptionView<'a>,
}

/// What a frame seems to say by its fields. None where it is too short, has an option that is cut, or has no kind of a
/// client's message: such a frame is no client's, whatever its configuration is.
pub fn seen_in<'a>(frame: &'a [u8]) -> Option<Seen4<'a>>
    ensures sent { IfSome result (λ seen. seen_in frame.now ≡ Some seen.sent) }
    ensures options { IfSome result (λ seen. view_instances seen.options ≡ message_instances (drop 42 frame.now)) }
    ensures unsaid { IfNone result (IsUnsaid frame.now) }
{
    if frame.len() < HEADERS_LEN + OPTIONS {
        return None;
    }
    let (_, message) = frame.split_at(HEADERS_LEN);
    let Some(options) = options_in(message) else {
        return None;
    };
    let Some(kind) = kind_in(&options) else {
        return None;
    };
    let sent = Sent4 {
        ends: ends_in(frame),
        said: said_as(message, &options, kind),
    };
    Some(Seen4 { sent, options })
}

fn areas_of(message: &[u8]) -> Areas<'_>
    requires { 240 ≤ length message.now }
    ensures options { result.options.now ≡ options_area message.now }
    ensures file { result.file.now ≡ file_area message.now }
    ensures sname { result.sname.now ≡ sname_area message.now }
{
    let (_, options) = message.split_at(OPTIONS);
    Areas {
        options,
        file: field(message, FILE, FILE_LEN),
        sname: field(message, SNAME, SNAME_LEN),
    }
}

/// The options of a message. None where the end of an area cuts one.
fn options_in(message: &[u8]) -> Option<OptionView<'_>>
    requires { 240 ≤ length message.now }
    ensures whole { IfSome result (λ options. view_instances options ≡ message_instances message.now) }
    ensures cut { IfNone result (malformed_place message.now ≢ None) }
{
    match options_of(areas_of(message)) {
        Ok(options) => Some(options),
        Err(_) => None,
    }
}

fn kind_numbered(number: u8) -> Option<Kind4>
    ensures { result ≡ kind_numbered number }
{
    match number {
        kind::DISCOVER => Some(Kind4::Discover),
        kind::REQUEST => Some(Kind4::Request),
        kind::DECLINE => Some(Kind4::Decline),
        kind::RELEASE => Some(Kind4::Release),
        _ => None,
    }
}

fn kind_in(options: &OptionView) -> Option<Kind4>
    ensures { result ≡ option_and_then kind_numbered (byte_of MESSAGE_TYPE (view_instances options.now)) }
{
    kind_numbered(byte_at(options, code::MESSAGE_TYPE)?)
}

/// What the fields of a message and its options say.
fn said_as(message: &[u8], options: &OptionView, kind: Kind4) -> Said4
    requires { 240 ≤ length message.now }
    ensures { result ≡ said_as message.now (view_instances options.now) kind }
{
    Said4 {
        kind,
        xid: u32_field(message, XID),
        secs: u16_field(message, SECS),
        flags: u16_field(message, FLAGS),
        ciaddr: ip4_field(message, CIADDR),
        mac: mac_field(message, CHADDR),
        asked: addr_at(options, code::REQUESTED_ADDRESS),
        server: addr_at(options, code::SERVER_IDENTIFIER),
    }
}

/// The ends in the headers of Ethernet and IPv4.
fn ends_in(frame: &[u8]) -> Ends4
    requires { 42 ≤ length frame.now }
    ensures { result ≡ ends_in frame.now }
{
    Ends4 {
        from_mac: mac_field(frame, FROM_MAC),
        to_mac: mac_field(frame, TO_MAC),
        from: ip4_field(frame, FROM),
        to: ip4_field(frame, TO),
    }
}

/// Whether the frame is that of the message, byte for byte. Only want of memory is an error.
pub fn is_spelled(alloc: Global, frame: &[u8], sent: &Sent4, ask: &Ask4) -> Result<bool, NoMemory>
    requires { AskFits (ask_content ask.now) }
    ensures { IfOk result (λ same. same ≡ bytes_eq frame.now (frame_of (ask_content ask.now) sent.now)) }
{
    let spelled = build4(alloc, sent, ask)?;
    Ok(frame == spelled.as_slice())
}
