//! The words of the line `start`, read.
ghost use Rattle.std.specs.Prelude.{◌≡◌, ◌+◌, ◌^◌, ◌<◌, ◌≤◌, IfSome, option_map, IfOk};
ghost use Rattle.script_lines.specs.Carriers.{listed_at, list_of_listed_at, bits_at, up_at, begin_at};

use crate::lines::{moment_field_of, salt_field_of};
use net_types::{FromText, IfIndex, NoMemory, list_of, strip_word};
use row_texts::iface_of;
use std::alloc::Global;
use world::Begin;

/// An interface in a list.
#[derive(Clone, Copy, PartialEq, Eq, Drop)]
pub struct Listed {
    pub iface: IfIndex,
}

impl FromText for Listed {
    ghost found = { listed_at };

    #[tactic(auto, unfolding(crate::specs::Carriers::listed_at))]
    fn from_text(text: &[u8]) -> Option<Listed> {
        let iface = iface_of(text)?;
        Some(Listed { iface })
    }
}

/// The interfaces listed, or `-` for none.
#[tactic(auto, unfolding(crate::specs::Carriers::list_of_listed_at))]
fn listed_of(alloc: Global, bytes: &[u8]) -> Result<Option<Vec<Listed>>, NoMemory>
    ensures { IfOk result (λ o. option_map (λ v. v.items) o ≡ list_of_listed_at bytes.now) }
{
    if bytes == b"-".as_slice() {
        Ok(Some(Vec::new(alloc)))
    } else {
        list_of(alloc, bytes, b',')
    }
}

/// The carriers of so many interfaces from the first on, the first one's as the lowest bit.
fn bits_of(first: u32, count: u32, listed: &[Listed]) -> Option<u64>
    requires within { first + count ≤ 65 }
    requires few { count ≤ 64 }
    ensures value { result ≡ bits_at first count listed.now }
    ensures below { IfSome result (λ up. up < 2 ^ count) }
{
    if count == 0 {
        return if listed.is_empty() { Some(0) } else { None };
    }
    match listed.split_first() {
        None => Some(0),
        Some((next, others)) => {
            if next.iface.number == first {
                let up = bits_of(first + 1, count - 1, others)?;
                Some(2 * up + 1)
            } else {
                let up = bits_of(first + 1, count - 1, listed)?;
                Some(2 * up)
            }
        }
    }
}

#[tactic(auto, unfolding(crate::specs::Carriers::up_at))]
fn up_of(alloc: Global, count: u32, bytes: &[u8]) -> Result<Option<u64>, NoMemory>
    requires { count ≤ 64 }
    ensures { IfOk result (λ o. o ≡ up_at count bytes.now) }
{
    let listed = listed_of(alloc, bytes)?;
    match listed {
        Some(listed) => Ok(bits_of(1, count, &listed)),
        None => Ok(None),
    }
}

/// How a life begins, where so many interfaces can be listed.
#[tactic(auto, unfolding(crate::specs::Carriers::begin_at))]
pub fn begin_of(alloc: Global, count: u32, bytes: &[u8]) -> Result<Option<Begin>, NoMemory>
    requires { count ≤ 64 }
    ensures { IfOk result (λ o. o ≡ begin_at count bytes.now) }
{
    let Some((at, rest)) = moment_field_of(bytes) else {
        return Ok(None);
    };
    let Some((salt, rest)) = salt_field_of(rest) else {
        return Ok(None);
    };
    let Some(rest) = strip_word(rest, b"up ") else {
        return Ok(None);
    };
    let up = up_of(alloc, count, rest)?;
    match up {
        Some(up) => Ok(Some(Begin { at, salt, up })),
        None => Ok(None),
    }
}
