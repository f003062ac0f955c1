//! A client's message, written anew from what it seems to say.

ghost use Rattle.std.specs.Prelude.{◌≡◌, ◌++◌, ◌∷◌, [], bytes_eq, map, IfOk, OnOk};
ghost use Rattle.std.specs.Option.{option_map};
ghost use Rattle.v6_options.specs.Ias.{ias_in};
ghost use Rattle.v6_options.specs.IaViews.{ia_shown, items_left};
ghost use Rattle.v6_options.specs.OptionGrammar.{word_text};
ghost use Rattle.v6_message.specs.ReadBack.{asked_in};
ghost use Rattle.v6_message.specs.Requests.{ia_option, ia_value, item_of, message6_text, options_text, said_options, server_options};
ghost use Rattle.own_frames6.specs.Shown.{said_shown};

use crate::framing::len_octets;
use crate::reading::SaidView;
use net_types::{NoMemory, u16_octets, u32_octets};
use std::alloc::{AllocError, Global};
use v6_message::parts::{
    NO_TIMES, code_of, put_header, put_item, put_rapid, put_wanted_in, put_word,
};
use v6_options::{IaKind, IaView, Items, code, ia_views};

/// A length, as its two bytes have it.
fn put_len(message: &mut Vec<u8>, len: usize) -> Result<(), AllocError>
    ensures { OnOk result (message.new.items ≡ message.old.items ++ word_text len) }
{
    message.extend_from_slice(&len_octets(len))
}

fn put_option(message: &mut Vec<u8>, code: u16, value: &[u8]) -> Result<(), AllocError>
    ensures { OnOk result (message.new.items ≡ message.old.items ++ options_text ((code, value.now) ∷ [])) }
{
    put_word(message, code)?;
    put_len(message, value.len())?;
    message.extend_from_slice(value)
}

/// The addresses or prefixes of an IA.
fn put_items(message: &mut Vec<u8>, kind: IaKind, items: Items<'_>) -> Result<(), AllocError>
    ensures { OnOk result
        (message.new.items
        ≡ message.old.items ++ options_text (map (item_of kind) (map (λ item. item.net) (items_left items.entry)))) }
{
    'items: for said in items {
        put_item(message, kind, said.net)?;
    }
    Ok(())
}

/// The value of an IA's option.
fn ia_value(alloc: Global, ia: IaView) -> Result<Vec<u8>, AllocError>
    ensures { IfOk result (λ value. value.items ≡ ia_value (asked_in (ia_shown ia.entry))) }
{
    let mut value = Vec::new(alloc);
    value.extend_from_slice(&u32_octets(ia.iaid))?;
    value.extend_from_slice(&NO_TIMES)?;
    put_items(&mut value, ia.kind, ia.items())?;
    Ok(value)
}

fn put_ia(alloc: Global, message: &mut Vec<u8>, ia: IaView) -> Result<(), AllocError>
    ensures { OnOk result
        (message.new.items ≡ message.old.items ++ options_text (ia_option (asked_in (ia_shown ia.entry)) ∷ [])) }
{
    let value = ia_value(alloc, ia)?;
    put_option(message, code_of(ia.kind), &value)
}

/// The IAs among options.
fn put_ias(alloc: Global, message: &mut Vec<u8>, options: &[u8]) -> Result<(), AllocError>
    ensures { OnOk result
        (message.new.items
        ≡ message.old.items ++ options_text (map ia_option (map asked_in (ias_in options.now)))) }
{
    'ias: for ia in ia_views(options) {
        put_ia(alloc, message, ia)?;
    }
    Ok(())
}

/// The server that is spoken to, where there is one.
fn put_server(message: &mut Vec<u8>, server: Option<&[u8]>) -> Result<(), AllocError>
    ensures { OnOk result
        (message.new.items
        ≡ message.old.items ++ options_text (server_options (option_map (λ v. v.now) server.entry))) }
{
    match server {
        Some(server) => put_option(message, code::SERVER_IDENTIFIER, server),
        None => Ok(()),
    }
}

/// The options of a message, in their order.
fn put_options(alloc: Global, message: &mut Vec<u8>, said: &SaidView) -> Result<(), AllocError>
    ensures { OnOk result
        (message.new.items ≡ message.old.items ++ options_text (said_options (said_shown said.now))) }
{
    put_option(message, code::CLIENT_IDENTIFIER, said.client)?;
    put_server(message, said.server)?;
    put_option(message, code::ELAPSED_TIME, &u16_octets(said.elapsed))?;
    put_rapid(message, said.rapid)?;
    put_ias(alloc, message, said.options)?;
    put_wanted_in(message, said.kind)
}

fn message(alloc: Global, said: &SaidView) -> Result<Vec<u8>, AllocError>
    ensures { IfOk result (λ bytes. bytes.items ≡ message6_text (said_shown said.now)) }
{
    let mut bytes = Vec::new(alloc);
    put_header(&mut bytes, said.kind, said.xid)?;
    put_options(alloc, &mut bytes, said)?;
    Ok(bytes)
}

/// Whether the bytes are those of the message.
pub(crate) fn is_spelled(alloc: Global, bytes: &[u8], said: &SaidView) -> Result<bool, NoMemory>
    ensures { IfOk result (λ same. same ≡ bytes_eq bytes.now (message6_text (said_shown said.now))) }
{
    match message(alloc, said) {
        Ok(text) => Ok(bytes == text.as_slice()),
        Err(_) => Err(NoMemory),
    }
}
