//! What a client's message seems to say.

ghost use Rattle.std.specs.Prelude.{◌≡◌, ◌≤◌, [], length, slice_index, unwrap_or};
ghost use Rattle.std.specs.Option.{option_map};
ghost use Rattle.v6_options.specs.OptionArea.{instances_in, word_in};
ghost use Rattle.v6_options.specs.OptionWalk.{first_of};
ghost use Rattle.v6_message.specs.Kinds.{kind_by};
ghost use Rattle.v6_message.specs.ReadBack.{said_with, seems};
ghost use Rattle.v6_message.specs.Replies.{options_area, xid_in};
ghost use Rattle.own_frames6.specs.Shown.{said_shown};

use byteorder::{BigEndian, ByteOrder};
use v6_message::Kind6;
use v6_options::{code, first_value};

/// The bytes of a type and a transaction ID, which stand before the options (RFC 8415, section 8).
pub(crate) const OPTIONS: usize = 4;

/// A client's message (RFC 8415, sections 8 and 18.2).
#[derive(Clone, Copy)]
pub struct SaidView<'a> {
    pub kind: Kind6,
    /// Below 2^24.
    pub xid: u32,
    /// The DUID of the client; nothing where there is no option 1.
    pub client: &'a [u8],
    /// The DUID of the server that is spoken to.
    pub server: Option<&'a [u8]>,
    /// Hundredths of a second since the exchange began (RFC 8415, section 21.9).
    pub elapsed: u16,
    /// Whether it has option 14.
    pub rapid: bool,
    /// All options, with the IAs.
    pub options: &'a [u8],
}

const SOLICIT: u8 = 1;

const REQUEST: u8 = 3;

const RENEW: u8 = 5;

const REBIND: u8 = 6;

const RELEASE: u8 = 8;

const DECLINE: u8 = 9;

/// The client's message of this number (RFC 8415, section 7.3).
fn kind_of(number: u8) -> Option<Kind6>
    ensures { result ≡ kind_by number }
{
    match number {
        SOLICIT => Some(Kind6::Solicit),
        REQUEST => Some(Kind6::Request),
        RENEW => Some(Kind6::Renew),
        REBIND => Some(Kind6::Rebind),
        RELEASE => Some(Kind6::Release),
        DECLINE => Some(Kind6::Decline),
        _ => None,
    }
}

fn xid_at(message: &[u8]) -> u32
    requires { 4 ≤ length message.now }
    ensures { result ≡ xid_in message.now }
{
    BigEndian::read_u24(&message[1..])
}

/// The value of the first option of a code, or nothing.
fn value_or_nothing(options: &[u8], code: u16) -> &[u8]
    ensures { result.now ≡ unwrap_or (first_of code (instances_in options.now)) [] }
{
    match first_value(options, code) {
        Some(value) => value,
        None => &[],
    }
}

/// The byte at a place, and 0 where there is none.
fn byte_at(bytes: &[u8], at: usize) -> u8
    ensures { result ≡ slice_index bytes.now at }
{
    match bytes.get(at) {
        Some(byte) => *byte,
        None => 0,
    }
}

/// The number of the first two bytes.
fn word_of(bytes: &[u8]) -> u16
    ensures { result ≡ word_in 0 bytes.now }
{
    u16::from(byte_at(bytes, 0)) * 256 + u16::from(byte_at(bytes, 1))
}

/// What a message of this kind says.
fn said_with(kind: Kind6, message: &[u8]) -> SaidView<'_>
    requires { 4 ≤ length message.now }
    ensures { said_shown result ≡ said_with message.now (instances_in (options_area message.now)) kind }
{
    let (_, options) = message.split_at(OPTIONS);
    SaidView {
        kind,
        xid: xid_at(message),
        client: value_or_nothing(options, code::CLIENT_IDENTIFIER),
        server: first_value(options, code::SERVER_IDENTIFIER),
        elapsed: word_of(value_or_nothing(options, code::ELAPSED_TIME)),
        rapid: first_value(options, code::RAPID_COMMIT).is_some(),
        options,
    }
}

/// What a message seems to say. Whether it does is asked of its bytes.
#[tactic(auto, unfolding(v6_message::specs::ReadBack::seems))]
pub(crate) fn seems(message: &[u8]) -> Option<SaidView<'_>>
    requires { 4 ≤ length message.now }
    ensures { option_map said_shown result ≡ seems message.now }
{
    let kind = kind_of(message[0])?;
    Some(said_with(kind, message))
}
