//! Parts of a client's message, written: what such messages share, whoever writes them.

ghost use Rattle.std.specs.Prelude.{◌≡◌, ◌<◌, ◌^◌, ◌++◌, ◌∷◌, [], length, OnOk};
ghost use Rattle.v6_options.specs.OptionGrammar.{word_text};
ghost use Rattle.v6_options.specs.declared.ia.IaKind.TheVariants.{Na, Pd};
ghost use Rattle.v6_message.specs.Kinds.{number_of_kind};
ghost use Rattle.v6_message.specs.Requests.{code_of, item_of, options_text, rapid_options, wanted, wanted_in, xid_text};

use crate::kind::Kind6;
use byteorder::{BigEndian, ByteOrder};
use net_types::{Net6, u16_octets};
use std::alloc::AllocError;
use v6_options::layout::{ADDRESS_FIELDS_LEN, PREFIX_FIELDS_LEN};
use v6_options::{IaKind, code};

/// Both lifetimes of an item, or T1 and T2: a client leaves them to the server.
pub const NO_TIMES: [u8; 8] = [0; 8];
/// The three codes that a client wants, of two bytes each.
const WANTED_LEN: u16 = 6;

/// A number of two bytes.
pub fn put_word(message: &mut Vec<u8>, word: u16) -> Result<(), AllocError>
    ensures { OnOk result (message.new.items ≡ message.old.items ++ word_text word) }
{
    message.extend_from_slice(&u16_octets(word))
}

/// An option of a code.
pub(crate) fn put_option(message: &mut Vec<u8>, code: u16, value: &[u8]) -> Result<(), AllocError>
    requires { length value.now < 2 ^ 16 }
    ensures { OnOk result (message.new.items ≡ message.old.items ++ options_text ((code, value.now) ∷ [])) }
{
    put_word(message, code)?;
    put_word(message, value.len() as u16)?;
    message.extend_from_slice(value)
}

fn put_address(message: &mut Vec<u8>, net: Net6) -> Result<(), AllocError>
    ensures { OnOk result (message.new.items ≡ message.old.items ++ options_text (item_of Na net ∷ [])) }
{
    put_word(message, code::IA_ADDRESS)?;
    put_word(message, ADDRESS_FIELDS_LEN as u16)?;
    message.extend_from_slice(&net.ip.octets())?;
    message.extend_from_slice(&NO_TIMES)
}

fn put_prefix(message: &mut Vec<u8>, net: Net6) -> Result<(), AllocError>
    ensures { OnOk result (message.new.items ≡ message.old.items ++ options_text (item_of Pd net ∷ [])) }
{
    put_word(message, code::IA_PREFIX)?;
    put_word(message, PREFIX_FIELDS_LEN as u16)?;
    message.extend_from_slice(&NO_TIMES)?;
    message.push(net.len)?;
    message.extend_from_slice(&net.ip.octets())
}

/// An address or a prefix of an IA, with its lifetimes left to the server (RFC 8415, sections 21.6 and 21.22).
pub fn put_item(message: &mut Vec<u8>, kind: IaKind, net: Net6) -> Result<(), AllocError>
    ensures { OnOk result (message.new.items ≡ message.old.items ++ options_text (item_of kind net ∷ [])) }
{
    match kind {
        IaKind::Na => put_address(message, net),
        IaKind::Pd => put_prefix(message, net),
    }
}

/// The code of an IA.
pub fn code_of(kind: IaKind) -> u16
    ensures { result ≡ code_of kind }
{
    match kind {
        IaKind::Na => code::IA_NA,
        IaKind::Pd => code::IA_PD,
    }
}

/// The wish for a Reply at once, where there is it (RFC 8415, section 21.14).
pub fn put_rapid(message: &mut Vec<u8>, rapid: bool) -> Result<(), AllocError>
    ensures { OnOk result (message.new.items ≡ message.old.items ++ options_text (rapid_options rapid)) }
{
    if rapid {
        return put_option(message, code::RAPID_COMMIT, &[]);
    }
    Ok(())
}

/// The options that a client wants.
fn put_wanted(message: &mut Vec<u8>) -> Result<(), AllocError>
    ensures { OnOk result (message.new.items ≡ message.old.items ++ options_text wanted) }
{
    put_word(message, code::OPTION_REQUEST)?;
    put_word(message, WANTED_LEN)?;
    put_word(message, code::DNS_SERVERS)?;
    put_word(message, code::DOMAIN_LIST)?;
    put_word(message, code::SOL_MAX_RT)
}

/// What a message of this kind wants.
pub fn put_wanted_in(message: &mut Vec<u8>, kind: Kind6) -> Result<(), AllocError>
    ensures { OnOk result (message.new.items ≡ message.old.items ++ options_text (wanted_in kind)) }
{
    match kind {
        Kind6::Solicit | Kind6::Request | Kind6::Renew | Kind6::Rebind => put_wanted(message),
        Kind6::Release | Kind6::Decline => Ok(()),
    }
}

/// The type and the transaction ID.
pub fn put_header(message: &mut Vec<u8>, kind: Kind6, xid: u32) -> Result<(), AllocError>
    ensures { OnOk result (message.new.items ≡ message.old.items ++ number_of_kind kind ∷ xid_text xid) }
{
    let mut header = [0; 4];
    BigEndian::write_u32(&mut header, xid);
    // the type stands where the high byte of the number would
    header[0] = kind.number();
    message.extend_from_slice(&header)
}
