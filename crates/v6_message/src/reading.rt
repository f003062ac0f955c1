//! A server's message, read.

ghost use Rattle.std.specs.Prelude.{◌≡◌, ◌≤◌, [], length, map, Some, IfOk, IfErr, unwrap_or};
ghost use Rattle.std.specs.Option.{option_and_then};
ghost use Rattle.v6_options.specs.OptionArea.{instances_in};
ghost use Rattle.v6_options.specs.OptionWalk.{first_of};
ghost use Rattle.v6_options.specs.Ias.{ias_in};
ghost use Rattle.v6_options.specs.IaViews.{ia_content};
ghost use Rattle.v6_options.specs.Codes as codes;
ghost use Rattle.v6_message.specs.Replies.{content_of, message6_in, options_area, preference_by, refusal_of, seconds_by, xid_in};
ghost use Rattle.v6_message.specs.Shown.{message_shown};

use crate::kind::{ServerKind6, server_kind_of};
use byteorder::{BigEndian, ByteOrder};
use net_types::NoMemory;
use std::alloc::Global;
use thiserror::Error;
use v6_options::{IaSaid, Status, check_options, code, first_value, ia_views, status_of};

/// Where the options begin.
///
/// ```text
/// | type (1) | xid (3) | options |
/// ```
const OPTIONS: usize = 4;

/// Why bytes aren't a server's message: the first of these that holds.
#[derive(Clone, Copy, Debug, PartialEq, Eq, Error)]
pub enum Bad6 {
    /// There are fewer bytes than a type and a transaction ID take.
    #[error("Short")]
    Short,
    /// The first option, at any depth, that runs past what holds it, has no room for its fixed fields or a prefix of
    /// more than 128 bits stands at this byte.
    #[error("Malformed")]
    Malformed { place: usize },
    /// The type is neither ADVERTISE nor REPLY.
    #[error("OtherType")]
    OtherType,
}

/// A server's message. Of each option the first counts.
#[derive(Clone, Copy)]
pub struct Msg6<'a> {
    pub kind: ServerKind6,
    /// Below 2^24.
    pub xid: u32,
    /// The DUID of the client that it goes to.
    pub client: Option<&'a [u8]>,
    /// The DUID of the server.
    pub server: Option<&'a [u8]>,
    pub status: Status,
    /// 0 where there is none.
    pub preference: u8,
    /// Whether it has option 14.
    pub rapid: bool,
    /// The longest time between two SOLICITs, in seconds.
    pub sol_max: Option<u32>,
    /// What `dns6_of` reads; nothing where there is no option 23.
    pub dns: &'a [u8],
    /// What `search6_of` reads; nothing where there is no option 24.
    pub search: &'a [u8],
    /// All options, with the IAs.
    pub options: &'a [u8],
}

/// The preference among options.
fn preference_of(options: &[u8]) -> u8
    ensures { result ≡ preference_by (first_of codes.preference (instances_in options.now)) }
{
    match first_value(options, code::PREFERENCE) {
        Some([value]) => *value,
        _ => 0,
    }
}

/// Seconds in four bytes.
fn seconds_of(value: &[u8]) -> Option<u32>
    ensures { result ≡ seconds_by value.now }
{
    if value.len() != 4 {
        return None;
    }
    Some(BigEndian::read_u32(value))
}

fn sol_max_of(options: &[u8]) -> Option<u32>
    ensures { result ≡ option_and_then seconds_by (first_of codes.sol_max_rt (instances_in options.now)) }
{
    let value = first_value(options, code::SOL_MAX_RT)?;
    seconds_of(value)
}

/// The value of the first option of a code, or nothing.
fn value_or_nothing(options: &[u8], code: u16) -> &[u8]
    ensures { result.now ≡ unwrap_or (first_of code (instances_in options.now)) [] }
{
    match first_value(options, code) {
        Some(value) => value,
        None => &[],
    }
}

fn xid_at(payload: &[u8]) -> u32
    requires { 4 ≤ length payload.now }
    ensures { result ≡ xid_in payload.now }
{
    BigEndian::read_u24(&payload[1..])
}

/// What a message of this kind says.
fn message_of(kind: ServerKind6, payload: &[u8]) -> Msg6<'_>
    requires { 4 ≤ length payload.now }
    ensures { message_shown result ≡ content_of payload.now (instances_in (options_area payload.now)) kind }
{
    let (_, options) = payload.split_at(OPTIONS);
    Msg6 {
        kind,
        xid: xid_at(payload),
        client: first_value(options, code::CLIENT_IDENTIFIER),
        server: first_value(options, code::SERVER_IDENTIFIER),
        status: status_of(options),
        preference: preference_of(options),
        rapid: first_value(options, code::RAPID_COMMIT).is_some(),
        sol_max: sol_max_of(options),
        dns: value_or_nothing(options, code::DNS_SERVERS),
        search: value_or_nothing(options, code::DOMAIN_LIST),
        options,
    }
}

/// The server's message that the bytes are (RFC 8415, sections 7.3 and 8). A refusal is the first fault in the order of
/// `Bad6`; options are judged at each depth, an option before those that it holds.
#[tactic(auto, unfolding(crate::specs::Replies::message6_in))]
pub fn read6(payload: &[u8]) -> Result<Msg6<'_>, Bad6>
    ensures read { IfOk result (λ message. message6_in payload.now ≡ Some (message_shown message)) }
    ensures refused { IfErr result (λ bad. refusal_of payload.now ≡ Some bad) }
{
    if payload.len() < OPTIONS {
        return Err(Bad6::Short);
    }
    let (_, options) = payload.split_at(OPTIONS);
    if let Err(malformed) = check_options(options, OPTIONS) {
        return Err(Bad6::Malformed {
            place: malformed.place,
        });
    }
    match server_kind_of(payload[0]) {
        Some(kind) => Ok(message_of(kind, payload)),
        None => Err(Bad6::OtherType),
    }
}

/// The IAs of a message with their addresses and prefixes, in their order.
pub fn ias_of(alloc: Global, message: &Msg6) -> Result<Vec<IaSaid>, NoMemory>
    ensures { IfOk result (λ ias. map ia_content ias.items ≡ ias_in message.now.options.now) }
{
    let mut ias = Vec::new(alloc);
    'ias: for ia in ia_views(message.options) {
        ias.push(ia.to_said(alloc)?)?;
    }
    Ok(ias)
}
