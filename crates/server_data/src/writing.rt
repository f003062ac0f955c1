//! A server's message, written.

ghost use Rattle.std.specs.Prelude.{◌≡◌, ◌≤◌, ◌++◌, length, IfOk, OnOk};
ghost use Rattle.v4_message.specs.Messages.{message_in};
ghost use Rattle.v4_message.specs.Requests.{options_text};
ghost use Rattle.server_data.specs.Replies.{kind_number, given_by, granted, reply_options, reply_fields, reply_text};
ghost use Rattle.server_data.specs.ReadBack.{reply_message, FitsReply};

use crate::field::{BOOT_REPLY, ETHERNET, MAC_LEN, MAGIC_COOKIE, NETMASK};
use crate::reply::{Reply, ReplyKind};
use net_types::{Ip4, NoMemory, u32_octets};
use std::alloc::{AllocError, Global};
use v4_message::{kind, put_option};
use v4_options::code;

/// The most bytes of a message: its fixed fields, four options and the end.
const MESSAGE_MAX: usize = 262;

/// The number of a message type in option 53.
fn number_of_kind(kind: ReplyKind) -> u8
    ensures { result ≡ kind_number kind }
{
    match kind {
        ReplyKind::Offer => kind::OFFER,
        ReplyKind::Ack => kind::ACK,
        ReplyKind::Nak => kind::NAK,
    }
}

/// The address that a message gives.
fn given(reply: &Reply) -> Ip4
    ensures { result ≡ given_by reply.now.kind reply.now.yiaddr }
{
    match reply.kind {
        ReplyKind::Offer | ReplyKind::Ack => reply.yiaddr,
        ReplyKind::Nak => Ip4::UNSPECIFIED,
    }
}

/// The fields before the options.
fn put_fields(message: &mut Vec<u8>, reply: &Reply) -> Result<(), AllocError>
    ensures { OnOk result (message.new.items ≡ message.old.items ++ reply_fields reply.now) }
{
    message.extend_from_slice(&[BOOT_REPLY, ETHERNET, MAC_LEN, 0])?;
    message.extend_from_slice(&u32_octets(reply.xid))?;
    // secs, flags and ciaddr
    message.extend_from_slice(&[0; 8])?;
    message.extend_from_slice(&given(reply).octets())?;
    // siaddr and giaddr
    message.extend_from_slice(&[0; 8])?;
    message.extend_from_slice(&reply.chaddr.bytes)?;
    // the rest of chaddr, sname and file
    message.extend_from_slice(&[0; 202])?;
    message.extend_from_slice(&MAGIC_COOKIE)
}

/// The time and the mask of a lease.
fn put_lease(message: &mut Vec<u8>, lease: u32) -> Result<(), AllocError>
    ensures { OnOk result (message.new.items ≡ message.old.items ++ options_text (granted lease)) }
{
    put_option(message, code::LEASE_TIME, &u32_octets(lease))?;
    put_option(message, code::SUBNET_MASK, &NETMASK.octets())
}

/// The options of a message, in their order.
fn put_options(message: &mut Vec<u8>, reply: &Reply) -> Result<(), AllocError>
    ensures { OnOk result (message.new.items ≡ message.old.items ++ options_text (reply_options reply.now)) }
{
    put_option(message, code::MESSAGE_TYPE, &[number_of_kind(reply.kind)])?;
    put_option(message, code::SERVER_IDENTIFIER, &reply.server.octets())?;
    match reply.kind {
        ReplyKind::Offer | ReplyKind::Ack => put_lease(message, reply.lease),
        ReplyKind::Nak => Ok(()),
    }
}

fn message(alloc: Global, reply: Reply) -> Result<Vec<u8>, AllocError>
    ensures text { IfOk result (λ bytes. bytes.items ≡ reply_text reply) }
    ensures fits { FitsReply reply }
{
    let mut bytes = Vec::with_capacity(alloc, MESSAGE_MAX)?;
    put_fields(&mut bytes, &reply)?;
    put_options(&mut bytes, &reply)?;
    bytes.push(code::END)?;
    Ok(bytes)
}

/// The bytes of a server's message (RFC 2131, section 4.3.1). Its options are 53 and 54, and in an OFFER and an ACK 51
/// and 1; a NAK gives no address. Only want of memory is an error.
pub fn server_data(alloc: Global, reply: &Reply) -> Result<Vec<u8>, NoMemory>
    // Exactly these bytes.
    ensures text { IfOk result (λ bytes. bytes.items ≡ reply_text reply.now) }
    // They are read as what was to be said.
    ensures read { IfOk result (λ bytes. message_in bytes.items ≡ Some (reply_message reply.now)) }
    // They are few: the fixed fields, four options and the end.
    ensures most { IfOk result (λ bytes. length bytes.items ≤ 262) }
{
    match message(alloc, *reply) {
        Ok(bytes) => Ok(bytes),
        Err(_) => Err(NoMemory),
    }
}
