//! A client's message, written.

ghost use Rattle.std.specs.Prelude.{◌≡◌, ◌<◌, ◌≤◌, ◌++◌, ◌∷◌, [], length, None, IfOk, OnOk};
ghost use Rattle.v4_message.specs.Message.{message_instances, malformed_place};
ghost use Rattle.v4_message.specs.Requests.{options_text, address_option, text_option, number_of_kind, asked_for, said_options, exchange_fields, client_fields, fixed_fields, message_text, padded, ask_content, AskFits};

use crate::field::{
    BOOT_REQUEST, CIADDR, ETHERNET, FLAGS, MAC_LEN, MAGIC_COOKIE, SECS, XID, YIADDR,
};
use crate::kind;
use byteorder::{BigEndian, ByteOrder};
use net_types::{Ip4, Mac, NoMemory, u16_octets};
use std::alloc::{AllocError, Global};
use v4_options::code;

/// A message is padded to so many bytes (RFC 1542, section 2.1).
const MESSAGE_MIN: usize = 300;
/// The largest message that the client takes, as option 57 tells it.
const MESSAGE_MAX: u16 = 1472;

/// The messages that a client says (RFC 2131, section 3.1).
#[derive(Clone, Copy, Debug, PartialEq, Eq)]
pub enum Kind4 {
    Discover,
    Request,
    Decline,
    Release,
}

/// What a client says of itself in each message, each at most 255 bytes.
#[derive(Drop)]
pub struct Ask4 {
    /// Option 61.
    pub client_id: Vec<u8>,
    /// Option 60, left out where it is empty.
    pub vendor: Vec<u8>,
    /// Option 12, left out where it is empty.
    pub host: Vec<u8>,
    /// Option 55: the codes that the client wants.
    pub list: Vec<u8>,
}

/// A message of a client.
#[derive(Clone, Copy, PartialEq, Eq)]
pub struct Said4 {
    pub kind: Kind4,
    pub xid: u32,
    /// Seconds since the client began.
    pub secs: u16,
    pub flags: u16,
    /// The address that the client has, or 0.
    pub ciaddr: Ip4,
    pub mac: Mac,
    /// Option 50: the address asked for or declined.
    pub asked: Option<Ip4>,
    /// Option 54: the server that is spoken to.
    pub server: Option<Ip4>,
}

/// The number of a message type in option 53.
fn number_of_kind(kind: Kind4) -> u8
    ensures { result ≡ number_of_kind kind }
{
    match kind {
        Kind4::Discover => kind::DISCOVER,
        Kind4::Request => kind::REQUEST,
        Kind4::Decline => kind::DECLINE,
        Kind4::Release => kind::RELEASE,
    }
}

/// The fields before the options.
fn put_fixed_fields(message: &mut Vec<u8>, said: &Said4) -> Result<(), AllocError>
    ensures fields { OnOk result (message.new.items ≡ message.old.items ++ fixed_fields said.now) }
    ensures len { OnOk result (length (fixed_fields said.now) ≡ 240) }
{
    message.extend_from_slice(&exchange_fields(said))?;
    put_client_fields(message, said)
}

/// The fields up to the address that the client has.
fn exchange_fields(said: &Said4) -> [u8; 16]
    ensures { result ≡ exchange_fields said.now }
{
    let mut fields = [0; YIADDR];
    // no hops
    fields[..XID].copy_from_slice(&[BOOT_REQUEST, ETHERNET, MAC_LEN, 0]);
    BigEndian::write_u32(&mut fields[XID..], said.xid);
    BigEndian::write_u16(&mut fields[SECS..], said.secs);
    BigEndian::write_u16(&mut fields[FLAGS..], said.flags);
    BigEndian::write_u32(&mut fields[CIADDR..], said.ciaddr.number);
    fields
}

fn octets(mac: &Mac) -> &[u8]
    ensures value { result.now ≡ mac.now.bytes }
    ensures len { length result.now ≡ 6 }
{
    &mac.bytes
}

fn put_client_fields(message: &mut Vec<u8>, said: &Said4) -> Result<(), AllocError>
    ensures fields { OnOk result (message.new.items ≡ message.old.items ++ client_fields said.now) }
    ensures mac { OnOk result (length said.now.mac.bytes ≡ 6) }
{
    // yiaddr, siaddr and giaddr
    message.extend_from_slice(&[0; 12])?;
    message.extend_from_slice(octets(&said.mac))?;
    // the rest of chaddr, sname and file
    message.extend_from_slice(&[0; 202])?;
    message.extend_from_slice(&MAGIC_COOKIE)
}

/// Appends an option with a value of fewer than 256 bytes (RFC 2132, section 2). Where memory runs out, a part of it
/// may stand there already.
pub fn put_option(message: &mut Vec<u8>, code: u8, value: &[u8]) -> Result<(), AllocError>
    requires { length value.now < 256 }
    ensures { OnOk result (message.new.items ≡ message.old.items ++ options_text ((code, value.now) ∷ [])) }
{
    message.push(code)?;
    message.push(value.len() as u8)?;
    message.extend_from_slice(value)
}

/// The option with an address, where there is one.
fn put_address(message: &mut Vec<u8>, code: u8, address: Option<Ip4>) -> Result<(), AllocError>
    ensures { OnOk result (message.new.items ≡ message.old.items ++ options_text (address_option code address)) }
{
    match address {
        Some(address) => put_option(message, code, &address.octets()),
        None => Ok(()),
    }
}

/// The option with a text, where that isn't empty.
fn put_text(message: &mut Vec<u8>, code: u8, text: &[u8]) -> Result<(), AllocError>
    requires { length text.now < 256 }
    ensures { OnOk result (message.new.items ≡ message.old.items ++ options_text (text_option code text.now)) }
{
    if text.is_empty() {
        return Ok(());
    }
    put_option(message, code, text)
}

/// What a client asks for in a DISCOVER or a REQUEST.
fn put_asked_for(message: &mut Vec<u8>, ask: &Ask4) -> Result<(), AllocError>
    requires { AskFits (ask_content ask.now) }
    ensures { OnOk result (message.new.items ≡ message.old.items ++ options_text (asked_for (ask_content ask.now))) }
{
    put_option(
        message,
        code::MAXIMUM_MESSAGE_SIZE,
        &u16_octets(MESSAGE_MAX),
    )?;
    put_text(message, code::VENDOR_CLASS, &ask.vendor)?;
    put_text(message, code::HOST_NAME, &ask.host)?;
    put_option(message, code::PARAMETER_REQUEST_LIST, &ask.list)
}

/// The options of a message, in their order.
fn put_options(message: &mut Vec<u8>, said: &Said4, ask: &Ask4) -> Result<(), AllocError>
    requires { AskFits (ask_content ask.now) }
    ensures { OnOk result
        (message.new.items ≡ message.old.items ++ options_text (said_options said.now (ask_content ask.now))) }
{
    put_option(message, code::MESSAGE_TYPE, &[number_of_kind(said.kind)])?;
    put_option(message, code::CLIENT_IDENTIFIER, &ask.client_id)?;
    put_address(message, code::REQUESTED_ADDRESS, said.asked)?;
    put_address(message, code::SERVER_IDENTIFIER, said.server)?;
    match said.kind {
        Kind4::Discover | Kind4::Request => put_asked_for(message, ask),
        Kind4::Decline | Kind4::Release => Ok(()),
    }
}

/// Zeros up to the least length.
fn pad(message: &mut Vec<u8>) -> Result<(), AllocError>
    ensures { OnOk result (message.new.items ≡ padded message.old.items) }
{
    if message.len() >= MESSAGE_MIN {
        return Ok(());
    }
    message.resize(MESSAGE_MIN, 0)?;
    Ok(())
}

fn message(alloc: Global, said: &Said4, ask: &Ask4) -> Result<Vec<u8>, AllocError>
    requires { AskFits (ask_content ask.now) }
    ensures text { IfOk result (λ bytes. bytes.items ≡ padded (message_text said.now (ask_content ask.now))) }
    ensures len { OnOk result (length (fixed_fields said.now) ≡ 240) }
{
    let mut bytes = Vec::with_capacity(alloc, MESSAGE_MIN)?;
    put_fixed_fields(&mut bytes, said)?;
    put_options(&mut bytes, said, ask)?;
    bytes.push(code::END)?;
    pad(&mut bytes)?;
    Ok(bytes)
}

/// The bytes of a client's message (RFC 2131, section 4.4.1). Its options are 53, 61, 50 and 54 where they are given,
/// and in a DISCOVER or a REQUEST 57, 60 and 12 where they aren't empty, and 55.
pub fn write4(alloc: Global, said: &Said4, ask: &Ask4) -> Result<Vec<u8>, NoMemory>
    requires { AskFits (ask_content ask.now) }
    // Exactly these bytes.
    ensures text { IfOk result (λ bytes. bytes.items ≡ padded (message_text said.now (ask_content ask.now))) }
    // Read again, they hold exactly those options.
    ensures whole { IfOk result (λ bytes. malformed_place bytes.items ≡ None) }
    ensures options { IfOk result
        (λ bytes. message_instances bytes.items ≡ said_options said.now (ask_content ask.now)) }
    // They fit the largest datagram.
    ensures most { IfOk result (λ bytes. length bytes.items ≤ 1472) }
{
    match message(alloc, said, ask) {
        Ok(bytes) => Ok(bytes),
        Err(_) => Err(NoMemory),
    }
}
