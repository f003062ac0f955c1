//! Values that are addresses of servers, and search lists.

ghost use Rattle.std.specs.Prelude.{◌≡◌, ◌/◌, length, map, is_some, IfOk};
ghost use Rattle.std.specs.Option.{option_map};
ghost use Rattle.std.specs.String.{string_bytes};
ghost use Rattle.v6_options.specs.Readers.{addresses_in, dns6_in, pointer_after, search6_in};

use crate::ia_view::ip6_at;
use crate::layout::ADDRESS_LEN;
use domain_names::{is_search, search_of};
use net_types::{Ip6, NoMemory};
use std::alloc::{AllocError, Global};

/// From this byte on a byte in the place of a label's length begins a pointer (RFC 1035, section 4.1.4).
const POINTER: u8 = 192;

/// The servers of domain names that are the value: option 23 (RFC 3646, section 3). None unless it is one address or
/// more and nothing else.
pub fn dns6_of(alloc: Global, value: &[u8]) -> Result<Option<Vec<Ip6>>, NoMemory>
    ensures { IfOk result (λ servers. option_map (λ v. v.items) servers ≡ dns6_in value.now) }
{
    if value.is_empty() {
        return Ok(None);
    }
    if value.len() % ADDRESS_LEN != 0 {
        return Ok(None);
    }
    match addresses(alloc, value) {
        Ok(servers) => Ok(Some(servers)),
        Err(_) => Err(NoMemory),
    }
}

/// Whether the value is servers as `dns6_of` reads them. It takes no memory.
pub fn are_servers6(value: &[u8]) -> bool
    ensures { result ≡ is_some (dns6_in value.now) }
{
    !value.is_empty() && value.len() % ADDRESS_LEN == 0
}

fn addresses(alloc: Global, value: &[u8]) -> Result<Vec<Ip6>, AllocError>
    ensures { IfOk result (λ all. all.items ≡ addresses_in (length value.now / 16) value.now) }
{
    let mut all = Vec::with_capacity(alloc, value.len() / ADDRESS_LEN)?;
    let mut rest = value;
    'addresses: while rest.len() >= ADDRESS_LEN {
        all.push(ip6_at(rest, 0))?;
        let (_, others) = rest.split_at(ADDRESS_LEN);
        rest = others;
    }
    Ok(all)
}

/// Whether a pointer stands where the length of a label is due.
fn has_pointer(value: &[u8]) -> bool
    ensures { result ≡ pointer_after 0 value.now }
{
    let mut rest = value;
    'labels: while !rest.is_empty() {
        if rest[0] >= POINTER {
            return true;
        }
        let len = rest[0] as usize;
        if rest.len() - 1 < len {
            return false;
        }
        let (_, others) = rest.split_at(1 + len);
        rest = others;
    }
    false
}

/// The names that are the value: option 24 (RFC 3646, section 4). None unless it is one name or more and nothing else,
/// each as labels to its end: none is compressed (RFC 8415, section 10).
pub fn search6_of(alloc: Global, value: &[u8]) -> Result<Option<Vec<String>>, NoMemory>
    ensures { IfOk result
        (λ names. option_map (λ v. map (λ name. string_bytes name) v.items) names ≡ search6_in value.now) }
{
    if has_pointer(value) {
        return Ok(None);
    }
    search_of(alloc, value)
}

/// Whether the value is names as `search6_of` reads them. It takes no memory.
pub fn is_search6(value: &[u8]) -> bool
    ensures { result ≡ is_some (search6_in value.now) }
{
    !has_pointer(value) && is_search(value)
}
