//! The words of the line `file`, read.
ghost use Rattle.std.specs.Prelude.{◌≡◌, IfOk, option_map};
ghost use Rattle.std.specs.List.{list_all};
ghost use Rattle.std.specs.Str.{IsUtf8};
ghost use Rattle.std.specs.String.{string_bytes};
ghost use Rattle.world.specs.FileNames.{is_file_byte};
ghost use Rattle.script_lines.specs.FileReading.{is_file_name, file_name_at, file_at};
ghost use Rattle.script_lines.specs.ScriptContent.{file_of};

use crate::script::FileLine;
use net_types::{NoMemory, hex_of, split_at_byte};
use std::alloc::Global;
use std::str::from_utf8;

/// The most bytes of a file's name.
const NAME_ROOM: usize = 64;

fn is_file_byte(byte: u8) -> bool
    ensures { result ≡ is_file_byte byte }
{
    byte.is_ascii_alphanumeric() || byte == b'.' || byte == b'_' || byte == b'-'
}

fn are_file_bytes(bytes: &[u8]) -> bool
    ensures { result ≡ list_all is_file_byte bytes.now }
{
    bytes.iter().all(|byte| is_file_byte(*byte))
}

fn is_file_name(bytes: &[u8]) -> bool
    ensures { result ≡ is_file_name bytes.now }
{
    !bytes.is_empty() && bytes.len() <= NAME_ROOM && are_file_bytes(bytes)
}

/// Bytes that are text.
fn text_of(alloc: Global, bytes: &[u8]) -> Result<String, NoMemory>
    requires { IsUtf8 bytes.now }
    ensures { IfOk result (λ text. string_bytes text ≡ bytes.now) }
{
    match from_utf8(bytes) {
        Ok(text) => Ok(String::from_str(alloc, text)?),
        Err(_) => unreachable!(),
    }
}

#[tactic(auto, unfolding(crate::specs::FileReading::file_name_at))]
fn file_name_of(alloc: Global, bytes: &[u8]) -> Result<Option<String>, NoMemory>
    ensures { IfOk result (λ o. option_map string_bytes o ≡ file_name_at bytes.now) }
{
    if !is_file_name(bytes) {
        return Ok(None);
    }
    let name = text_of(alloc, bytes)?;
    Ok(Some(name))
}

/// A file: its name, and its bytes.
#[tactic(auto, unfolding(crate::specs::FileReading::file_at))]
pub fn file_of(alloc: Global, bytes: &[u8]) -> Result<Option<FileLine>, NoMemory>
    ensures { IfOk result (λ o. option_map file_of o ≡ file_at bytes.now) }
{
    let Some((name, digits)) = split_at_byte(bytes, b' ') else {
        return Ok(None);
    };
    let Some(name) = file_name_of(alloc, name)? else {
        return Ok(None);
    };
    let Some(bytes) = hex_of(alloc, digits)? else {
        return Ok(None);
    };
    Ok(Some(FileLine { name, bytes }))
}
