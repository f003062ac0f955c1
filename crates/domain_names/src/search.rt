//! The search list: names one after another (RFC 3397).

ghost use Rattle.std.specs.Prelude.{◌≡◌, ◌≢◌, ◌<◌, ◌≤◌, [], length, map, is_some, IfOk, IfSome, MatchOption};
ghost use Rattle.std.specs.Option.{option_map};
ghost use Rattle.std.specs.String.{string_bytes};
ghost use Rattle.domain_names.specs.CompressedName.{IsNameAt, NoNameAt, AreNames, NoNames};
ghost use Rattle.domain_names.specs.SearchList.{search_in};

use crate::compressed::read_name;
use crate::text::ascii_text;
use net_types::NoMemory;
use std::alloc::{AllocError, Global};

/// The name that begins at `from` as text, and where what follows it begins.
fn name_at(alloc: Global, value: &[u8], from: usize) -> Result<Option<(String, usize)>, AllocError>
    ensures name { IfOk result
        (λ name. MatchOption name (NoNameAt value.now from) (λ x. IsNameAt value.now from (string_bytes x.0) x.1)) }
    ensures forward { IfOk result (λ name. IfSome name (λ x. (from < x.1) × (x.1 ≤ length value.now))) }
{
    let Some((name, next)) = read_name(value, from) else {
        return Ok(None);
    };
    let text = ascii_text(alloc, name.as_slice())?;
    Ok(Some((text, next)))
}

fn read_names(alloc: Global, value: &[u8]) -> Result<Option<Vec<String>>, AllocError>
    requires { 0 < length value.now }
    ensures { IfOk result
        (λ names. MatchOption names (NoNames value.now)
        (λ v. (v.items ≢ []) × AreNames value.now 0 (map (λ name. string_bytes name) v.items))) }
{
    let mut names = Vec::new(alloc);
    let mut at = 0;
    'names: while at < value.len() {
        let name = name_at(alloc, value, at)?;
        let Some((name, next)) = name else {
            return Ok(None);
        };
        names.push(name)?;
        at = next;
    }
    Ok(Some(names))
}

/// The names that are the value: option 119. None unless it is one compressed name or more, and nothing else.
pub fn search_of(alloc: Global, value: &[u8]) -> Result<Option<Vec<String>>, NoMemory>
    // What the grammar says.
    ensures names { IfOk result
        (λ names. MatchOption names (NoNames value.now)
        (λ v. (v.items ≢ []) × AreNames value.now 0 (map (λ name. string_bytes name) v.items))) }
    // The same as a function of the value.
    ensures gives { IfOk result
        (λ names. option_map (λ v. map (λ name. string_bytes name) v.items) names ≡ search_in value.now) }
{
    if value.is_empty() {
        return Ok(None);
    }
    match read_names(alloc, value) {
        Ok(names) => Ok(names),
        Err(_) => Err(NoMemory),
    }
}

/// Whether the value is names as `search_of` reads them. It takes no memory.
pub fn is_search(value: &[u8]) -> bool
    ensures { result ≡ is_some (search_in value.now) }
{
    if value.is_empty() {
        return false;
    }
    let mut from = 0;
    'names: while from < value.len() {
        let Some((_, next)) = read_name(value, from) else {
            return false;
        };
        from = next;
    }
    true
}
