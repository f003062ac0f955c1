//! Texts that are taken as they are.
ghost use Rattle.std.specs.Prelude.{◌≡◌, true, option_map, map, IfOk};
ghost use Rattle.std.specs.List.{list_all};
ghost use Rattle.std.specs.Str.{IsUtf8};
ghost use Rattle.std.specs.String.{string_bytes};
ghost use Rattle.net_types.specs.Marks.{is_printable};
ghost use Rattle.domain_names.specs.NameText.{is_name};
ghost use Rattle.conf_values.specs.Texts.{are_names, domain_name, domain_names, env_content, is_printed, printed, variable, variable_of};

use domain_names::is_name;
use net_types::{NoMemory, split_at_byte};
use std::alloc::{AllocError, Global};
use std::str::from_utf8;

/// A variable of hooks, printable ASCII.
#[derive(Debug, Drop)]
pub struct Env {
    /// Holds no `=`, and isn't empty.
    pub name: String,
    pub value: String,
}

/// How many bytes a text has at most.
pub const TEXT_LIMIT: usize = 255;

fn is_printable(byte: u8) -> bool
    ensures { result ≡ is_printable byte }
{
    b' ' <= byte && byte <= b'~'
}

fn are_printable(text: &[u8]) -> bool
    ensures { result ≡ list_all is_printable text.now }
{
    text.iter().all(|byte| is_printable(*byte))
}

fn is_printed(text: &[u8], limit: usize) -> bool
    ensures { result ≡ is_printed limit text.now }
{
    text.len() <= limit && are_printable(text)
}

/// A copy of bytes that are text.
fn owned_text(alloc: Global, text: &[u8]) -> Result<String, AllocError>
    requires { IsUtf8 text.now }
    ensures { IfOk result (λ copy. string_bytes copy ≡ text.now) }
{
    match from_utf8(text) {
        Ok(text) => String::from_str(alloc, text),
        Err(_) => unreachable!(),
    }
}

/// The text, where it is printable ASCII of no more bytes.
pub fn printed(text: &[u8], limit: usize) -> Option<&[u8]>
    ensures { option_map (λ printed. printed.now) result ≡ printed limit text.now }
{
    if is_printed(text, limit) {
        Some(text)
    } else {
        None
    }
}

/// A copy of the text, where it is printable ASCII of no more bytes.
pub fn printed_text(alloc: Global, text: &[u8], limit: usize) -> Result<Option<String>, AllocError>
    ensures { IfOk result (λ copy. option_map string_bytes copy ≡ printed limit text.now) }
{
    if is_printed(text, limit) {
        Ok(Some(owned_text(alloc, text)?))
    } else {
        Ok(None)
    }
}

/// The text, where it is the name of a domain.
pub fn domain_name(text: &[u8]) -> Option<&[u8]>
    ensures { option_map (λ name. name.now) result ≡ domain_name text.now }
{
    if is_name(text) { Some(text) } else { None }
}

/// A copy of the text, where it is the name of a domain.
pub fn domain_text(alloc: Global, text: &[u8]) -> Result<Option<String>, AllocError>
    ensures { IfOk result (λ name. option_map string_bytes name ≡ domain_name text.now) }
{
    if is_name(text) {
        Ok(Some(owned_text(alloc, text)?))
    } else {
        Ok(None)
    }
}

fn all_names(texts: &[&[u8]]) -> bool
    ensures { result ≡ list_all (λ text. is_name text.now) texts.now }
{
    texts.iter().all(|text| is_name(text))
}

/// Copies of texts that are names of domains.
fn copies(alloc: Global, texts: &[&[u8]]) -> Result<Vec<String>, AllocError>
    requires { list_all (λ text. is_name text.now) texts.now ≡ true }
    ensures { IfOk result (λ copies. map string_bytes copies.items ≡ map (λ text. text.now) texts.now) }
{
    let mut copies = Vec::new(alloc);
    for text in texts {
        copies.push(owned_text(alloc, text)?)?;
    }
    Ok(copies)
}

#[tactic(auto, using(crate::proofs::Views::names_viewed))]
fn are_names(texts: &[&[u8]]) -> bool
    ensures { result ≡ are_names (map (λ text. text.now) texts.now) }
{
    !texts.is_empty() && all_names(texts)
}

/// The texts, where there is one or more and they are names of domains.
pub fn domain_names(alloc: Global, texts: &[&[u8]]) -> Result<Option<Vec<String>>, AllocError>
    ensures { IfOk result
        (λ names. option_map (λ v. map string_bytes v.items) names ≡ domain_names (map (λ text. text.now) texts.now)) }
{
    if are_names(texts) {
        Ok(Some(copies(alloc, texts)?))
    } else {
        Ok(None)
    }
}

/// The name and the value that a text gives.
fn variable_parts(text: &[u8]) -> Option<(&[u8], &[u8])>
    ensures { option_map (λ parts. variable_of (parts.0.now, parts.1.now)) result ≡ variable text.now }
{
    let (name, value) = split_at_byte(printed(text, TEXT_LIMIT)?, b'=')?;
    if name.is_empty() {
        None
    } else {
        Some((name, value))
    }
}

/// The variable that a text says: NAME=VALUE.
pub fn variable(alloc: Global, text: &[u8]) -> Result<Option<Env>, AllocError>
    ensures { IfOk result (λ env. option_map env_content env ≡ variable text.now) }
{
    match variable_parts(text) {
        Some((name, value)) => Ok(Some(Env {
            name: owned_text(alloc, name)?,
            value: owned_text(alloc, value)?,
        })),
        None => Ok(None),
    }
}
