//! Appending to bytes. Where memory runs out the bytes are as before.
ghost use Rattle.std.specs.Prelude.{◌≡◌, ◌++◌, map, OnOk, OnErr, IfSome};
ghost use Rattle.std.specs.String.{string_bytes};
ghost use Rattle.transcript_text.specs.LineFields.{names_text};

use arrayvec::ArrayString;
use net_types::{NoMemory, append_bytes};
use std::fmt::{Display, Write};

/// Room for any row, address or name; a longer text is made on the heap.
const SHORT: usize = 128;

/// Appends one after the other.
pub fn append_both(first: &[u8], second: &[u8], into: &mut Vec<u8>) -> Result<(), NoMemory>
    ensures ok { OnOk result (into.new.items ≡ into.old.items ++ (first.now ++ second.now)) }
    ensures err { OnErr result (into.new.items ≡ into.old.items) }
{
    let len = into.len();
    append_bytes(first, into)?;
    if let Err(error) = append_bytes(second, into) {
        into.truncate(len);
        return Err(error);
    }
    Ok(())
}

/// The names of files, each after a blank.
pub fn append_names(names: &[String], into: &mut Vec<u8>) -> Result<(), NoMemory>
    ensures ok { OnOk result (into.new.items ≡ into.old.items ++ names_text (map string_bytes names.now)) }
    ensures err { OnErr result (into.new.items ≡ into.old.items) }
{
    let len = into.len();
    for name in names {
        if let Err(error) = append_both(b" ", name.as_bytes(), into) {
            into.truncate(len);
            return Err(error);
        }
    }
    Ok(())
}

/// The value's printed form, where it is short.
fn short_text<D: Display + Drop>(value: D) -> Option<ArrayString<SHORT>>
    ensures { IfSome result (λ text. IfSome (D.output value) (λ bytes. text.bytes ≡ bytes)) }
{
    let mut text = ArrayString::new();
    match write!(text, "{value}") {
        Ok(()) => Some(text),
        Err(_) => None,
    }
}

/// Appends the value's printed form.
pub fn append_shown<D: Display + Copy>(value: D, into: &mut Vec<u8>) -> Result<(), NoMemory>
    ensures ok { OnOk result (IfSome (D.output value) (λ bytes. into.new.items ≡ into.old.items ++ bytes)) }
    ensures err { OnErr result (into.new.items ≡ into.old.items) }
{
    match short_text(value) {
        Some(text) => append_bytes(text.as_str().as_bytes(), into),
        None => {
            let text = String::format(*into.allocator(), value)?;
            append_bytes(text.as_bytes(), into)
        }
    }
}
