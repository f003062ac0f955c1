//! Names as texts.

ghost use Rattle.std.specs.Prelude.{◌≡◌, is_some, IfOk};
ghost use Rattle.std.specs.Option.{option_map};
ghost use Rattle.std.specs.Str.{IsUtf8};
ghost use Rattle.std.specs.String.{string_bytes};
ghost use Rattle.domain_names.specs.NameText.{is_name, trimmed, text_in};
ghost use Rattle.domain_names.specs.LabelSteps.{labels_fit};

use crate::label::{DOT, LABEL_MAX, NAME_MAX, is_name_byte};
use net_types::NoMemory;
use std::alloc::{AllocError, Global};
use std::str::from_utf8;

/// Whether a text is a name: 1 to 253 bytes of labels parted by dots, each of 1 to 63 letters, digits, `-` and `_`.
pub fn is_name(text: &[u8]) -> bool
    ensures { result ≡ is_name text.now }
{
    if text.len() > NAME_MAX {
        return false;
    }
    labels_fit(text)
}

/// Whether the parts between the dots are labels.
fn labels_fit(text: &[u8]) -> bool
    ensures { result ≡ labels_fit 0 text.now }
{
    let mut len = 0;
    'bytes: for byte in text {
        if *byte == DOT {
            if len == 0 {
                return false;
            }
            len = 0;
            continue;
        }
        if len == LABEL_MAX {
            return false;
        }
        if !is_name_byte(*byte) {
            return false;
        }
        len += 1;
    }
    len > 0
}

/// The value without a trailing zero byte or dot, one of them at most.
fn trimmed(value: &[u8]) -> &[u8]
    ensures { result.now ≡ trimmed value.now }
{
    match value {
        [front @ .., 0 | DOT] => front,
        _ => value,
    }
}

/// Whether the value is a name as `text_of` reads it. It takes no memory.
pub fn is_text(value: &[u8]) -> bool
    ensures { result ≡ is_some (text_in value.now) }
{
    is_name(trimmed(value))
}

/// The name that is the value: options 12 and 15. One trailing zero byte or dot is dropped. None unless the rest is a
/// name.
pub fn text_of(alloc: Global, value: &[u8]) -> Result<Option<String>, NoMemory>
    ensures { IfOk result (λ text. option_map string_bytes text ≡ text_in value.now) }
{
    let name = trimmed(value);
    if !is_name(name) {
        return Ok(None);
    }
    match ascii_text(alloc, name) {
        Ok(text) => Ok(Some(text)),
        Err(_) => Err(NoMemory),
    }
}

/// The bytes of a name as a text.
pub(crate) fn ascii_text(alloc: Global, name: &[u8]) -> Result<String, AllocError>
    requires { IsUtf8 name.now }
    ensures { IfOk result (λ text. string_bytes text ≡ name.now) }
{
    match from_utf8(name) {
        Ok(text) => String::from_str(alloc, text),
        Err(_) => unreachable!(),
    }
}
