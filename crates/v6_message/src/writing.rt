//! A client's message, written.

ghost use Rattle.std.specs.Prelude.{◌≡◌, ◌≤◌, ◌++◌, ◌∷◌, [], length, map, IfOk, OnOk};
ghost use Rattle.std.specs.Option.{option_map};
ghost use Rattle.v6_message.specs.Requests.{asked_content, ia_option, ia_value, item_len, item_of, said_content};
ghost use Rattle.v6_message.specs.Requests.{message6_text, options_text, said_options, server_options};

use crate::parts::{
    NO_TIMES, code_of, put_header, put_item, put_option, put_rapid, put_wanted_in, put_word,
};
use crate::said::{IaAsked, Said6};
use net_types::{Net6, NoMemory, u16_octets, u32_octets};
use std::alloc::{AllocError, Global};
use v6_options::layout::{ADDRESS_FIELDS_LEN, HEADER_LEN, IA_FIELDS_LEN, PREFIX_FIELDS_LEN};
use v6_options::{Duid, IaKind, code};

/// What most messages take.
const MESSAGE_LEN: usize = 128;

/// The addresses or prefixes that an IA names.
fn put_items(message: &mut Vec<u8>, kind: IaKind, items: &[Net6]) -> Result<(), AllocError>
    ensures { OnOk result (message.new.items ≡ message.old.items ++ options_text (map (item_of kind) items.now)) }
{
    'items: for item in items {
        put_item(message, kind, *item)?;
    }
    Ok(())
}

/// How many bytes an item takes, with its code and its length.
fn item_len(kind: IaKind) -> usize
    ensures { result ≡ item_len kind }
{
    match kind {
        IaKind::Na => HEADER_LEN + ADDRESS_FIELDS_LEN,
        IaKind::Pd => HEADER_LEN + PREFIX_FIELDS_LEN,
    }
}

/// How many bytes the value of an IA takes.
fn ia_len(ia: &IaAsked) -> u16
    ensures { result ≡ length (ia_value (asked_content ia.now)) }
{
    (IA_FIELDS_LEN + ia.items.len() * item_len(ia.kind)) as u16
}

fn put_ia(message: &mut Vec<u8>, ia: &IaAsked) -> Result<(), AllocError>
    ensures { OnOk result
        (message.new.items ≡ message.old.items ++ options_text (ia_option (asked_content ia.now) ∷ [])) }
{
    put_word(message, code_of(ia.kind))?;
    put_word(message, ia_len(ia))?;
    message.extend_from_slice(&u32_octets(ia.iaid))?;
    message.extend_from_slice(&NO_TIMES)?;
    put_items(message, ia.kind, &ia.items)
}

fn put_ias(message: &mut Vec<u8>, ias: &[IaAsked]) -> Result<(), AllocError>
    ensures { OnOk result
        (message.new.items ≡ message.old.items ++ options_text (map ia_option (map asked_content ias.now))) }
{
    'ias: for ia in ias {
        put_ia(message, ia)?;
    }
    Ok(())
}

/// The server that is spoken to, where there is one.
fn put_server(message: &mut Vec<u8>, server: &Option<Duid>) -> Result<(), AllocError>
    ensures { OnOk result
        (message.new.items
        ≡ message.old.items ++ options_text (server_options (option_map (λ d. d.bytes.items) server.now))) }
{
    match server {
        Some(server) => put_option(message, code::SERVER_IDENTIFIER, server.as_slice()),
        None => Ok(()),
    }
}

/// The options of a message, in their order.
fn put_options(message: &mut Vec<u8>, said: &Said6, client: &Duid) -> Result<(), AllocError>
    ensures { OnOk result
        (message.new.items ≡ message.old.items ++ options_text (said_options (said_content said.now client.now))) }
{
    put_option(message, code::CLIENT_IDENTIFIER, client.as_slice())?;
    put_server(message, &said.server)?;
    put_option(message, code::ELAPSED_TIME, &u16_octets(said.elapsed))?;
    put_rapid(message, said.rapid)?;
    put_ias(message, &said.ias)?;
    put_wanted_in(message, said.kind)
}

fn message(alloc: Global, said: &Said6, client: &Duid) -> Result<Vec<u8>, AllocError>
    ensures { IfOk result (λ bytes. bytes.items ≡ message6_text (said_content said.now client.now)) }
{
    let mut bytes = Vec::with_capacity(alloc, MESSAGE_LEN)?;
    put_header(&mut bytes, said.kind, said.xid)?;
    put_options(&mut bytes, said, client)?;
    Ok(bytes)
}

/// The bytes of a client's message (RFC 8415, section 18.2): options 1, 2 where a server is given, 8, 14 where rapid
/// commit is asked for, the IAs, and, unless it gives back or declines, 6.
pub fn write6(alloc: Global, said: &Said6, client: &Duid) -> Result<Vec<u8>, NoMemory>
    ensures text { IfOk result (λ bytes. bytes.items ≡ message6_text (said_content said.now client.now)) }
    // They fit a datagram.
    ensures short { IfOk result (λ bytes. length bytes.items ≤ 1472) }
{
    match message(alloc, said, client) {
        Ok(bytes) => Ok(bytes),
        Err(_) => Err(NoMemory),
    }
}
