//! What the lines of a lease's text say, each by itself.

ghost use Rattle.std.specs.Prelude.{◌≡◌, ◌-◌, ◌^◌, ◌≤◌, option_map, IfOk};
ghost use Rattle.std.specs.List.{list_any};
ghost use Rattle.net_types.specs.Cutting.{pair_at};
ghost use Rattle.net_types.specs.Numbers.{number_at};
ghost use Rattle.lease_text.specs.Leases.{value_content};
ghost use Rattle.lease6_text.specs.Leases.{ia_content, ias_content};
ghost use Rattle.lease6_text.specs.LeaseLines.{item_word};
ghost use Rattle.lease6_text.specs.LineParts.{has_net, ia_at, is_delegated, is_ia, is_same_kind, item_at, item_net_at, may_begin, may_follow6, may_join, moment_at, server_at, value6_at};

use crate::form::{is_kept6, is_well_formed6};
use crate::lease::{
    ADDRESS_LEN, IA_LIMIT, ITEM_LIMIT, IaLease, Item6, LONGEST_DELEGATED, MOMENT6_LIMIT,
    SHORTEST_DELEGATED,
};
use lease_text::Value;
use net_types::{
    Net6, NoMemory, hex_of, number_of, printed_ip6_of, printed_net6_of, split_at_byte, strip_word,
};
use std::alloc::Global;
use v6_options::{Duid, IaKind};

/// One more than the greatest IAID.
const IAID_LIMIT: u64 = 0x1_0000_0000;
/// One more than the greatest code of an option.
const CODE_LIMIT: u64 = 0x1_0000;

/// The server whose DUID the text spells.
#[tactic(auto, unfolding(crate::specs::LineParts::server_at))]
pub fn server_of(alloc: Global, text: &[u8]) -> Result<Option<Duid>, NoMemory>
    ensures { IfOk result (λ duid. option_map (λ d. d.bytes.items) duid ≡ server_at text.now) }
{
    match hex_of(alloc, text)? {
        Some(bytes) => Duid::new(alloc, &bytes),
        None => Ok(None),
    }
}

/// The moment that the text spells; None within is never.
#[tactic(auto, unfolding(crate::specs::LineParts::moment_at))]
pub fn moment_of(text: &[u8]) -> Option<Option<u64>>
    ensures { result ≡ moment_at text.now }
{
    if text == b"never".as_slice() {
        Some(None)
    } else {
        Some(Some(number_of(text, MOMENT6_LIMIT)?))
    }
}

fn iaid_of(text: &[u8]) -> Option<u32>
    ensures { result ≡ number_at (2 ^ 32) text.now }
{
    match number_of(text, IAID_LIMIT) {
        Some(iaid) => Some(iaid as u32),
        None => None,
    }
}

/// The kind and the IAID of an IA.
#[tactic(auto, unfolding(crate::specs::LineParts::ia_at))]
pub fn ia_of(text: &[u8]) -> Option<(IaKind, u32)>
    ensures { result ≡ ia_at text.now }
{
    match strip_word(text, b"na ") {
        Some(rest) => Some((IaKind::Na, iaid_of(rest)?)),
        None => Some((IaKind::Pd, iaid_of(strip_word(text, b"pd ")?)?)),
    }
}

fn is_same_kind(one: IaKind, other: IaKind) -> bool
    ensures { result ≡ is_same_kind one other }
{
    one == other
}

/// Whether an IA of this kind and IAID is among these.
fn has_ia(ias: &[IaLease], kind: IaKind, iaid: u32) -> bool
    ensures { result ≡ list_any (λ ia. is_ia (kind, iaid) (ia_content ia)) ias.now }
{
    ias.iter()
        .any(|ia| is_same_kind(ia.kind, kind) && ia.iaid == iaid)
}

/// Whether an IA may come after these.
pub fn may_begin(ias: &[IaLease], kind: IaKind, iaid: u32) -> bool
    ensures { result ≡ may_begin (ias_content ias.now) (kind, iaid) }
{
    ias.len() < IA_LIMIT && !has_ia(ias, kind, iaid)
}

/// The word that the line of an item begins with.
pub fn item_word(kind: IaKind) -> &'static [u8]
    ensures { result.now ≡ item_word kind }
{
    match kind {
        IaKind::Na => b"addr ",
        IaKind::Pd => b"prefix ",
    }
}

/// How many addresses a prefix of this length has.
fn address_count(len: u8) -> u128
    requires { 1 ≤ len }
    ensures { result ≡ 2 ^ (128 - len) }
{
    2u128.pow(u32::from(ADDRESS_LEN.saturating_sub(len)))
}

/// Whether a prefix may be one that is delegated: its length is one of these, and no bit is set past it.
fn is_delegated(net: Net6) -> bool
    ensures { result ≡ is_delegated net }
{
    SHORTEST_DELEGATED <= net.len
        && net.len <= LONGEST_DELEGATED
        && net.ip.number % address_count(net.len) == 0
}

/// The address or the prefix that the text spells.
#[tactic(auto, unfolding(crate::specs::LineParts::item_net_at))]
fn item_net_of(alloc: Global, kind: IaKind, text: &[u8]) -> Result<Option<Net6>, NoMemory>
    ensures { IfOk result (λ net. net ≡ item_net_at kind text.now) }
{
    match kind {
        IaKind::Na => match printed_ip6_of(alloc, text)? {
            Some(ip) => Ok(Some(Net6 {
                ip,
                len: ADDRESS_LEN,
            })),
            None => Ok(None),
        },
        IaKind::Pd => match printed_net6_of(alloc, text)? {
            Some(net) if is_delegated(net) => Ok(Some(net)),
            _ => Ok(None),
        },
    }
}

/// The moments that the text spells, with a blank between them.
fn moments_of(text: &[u8]) -> Option<(Option<u64>, Option<u64>)>
    ensures { result ≡ pair_at 32 moment_at moment_at text.now }
{
    let (preferred, valid) = split_at_byte(text, b' ')?;
    let preferred = moment_of(preferred)?;
    Some((preferred, moment_of(valid)?))
}

/// The item of an IA of this kind that the text spells.
#[tactic(auto, unfolding(crate::specs::LineParts::item_at))]
pub fn item_of(alloc: Global, kind: IaKind, text: &[u8]) -> Result<Option<Item6>, NoMemory>
    ensures { IfOk result (λ item. item ≡ item_at kind text.now) }
{
    let Some((net, moments)) = split_at_byte(text, b' ') else {
        return Ok(None);
    };
    let Some(net) = item_net_of(alloc, kind, net)? else {
        return Ok(None);
    };
    let Some((preferred, valid)) = moments_of(moments) else {
        return Ok(None);
    };
    Ok(Some(Item6 {
        net,
        preferred,
        valid,
    }))
}

/// Whether an item with this net is among these.
fn has_net(items: &[Item6], net: Net6) -> bool
    ensures { result ≡ has_net items.now net }
{
    items.iter().any(|item| item.net == net)
}

/// Whether an item may come after these of its IA.
pub fn may_join(items: &[Item6], item: Item6) -> bool
    ensures { result ≡ may_join items.now item }
{
    items.len() < ITEM_LIMIT && !has_net(items, item.net)
}

/// Whether a value may come after one with the code `before`.
fn may_follow(alloc: Global, before: u16, code: u16, bytes: &[u8]) -> Result<bool, NoMemory>
    ensures { IfOk result (λ may. may ≡ may_follow6 before (record { code = code; bytes = bytes.now })) }
{
    if before < code && is_kept6(code) {
        is_well_formed6(alloc, code, bytes)
    } else {
        Ok(false)
    }
}

/// The value that the text spells, after one with the code `before`.
#[tactic(auto, unfolding(crate::specs::LineParts::value6_at))]
pub fn value_of(alloc: Global, before: u16, text: &[u8]) -> Result<Option<Value>, NoMemory>
    ensures { IfOk result (λ value. option_map value_content value ≡ value6_at before text.now) }
{
    let Some((code, rest)) = split_at_byte(text, b' ') else {
        return Ok(None);
    };
    let Some(code) = number_of(code, CODE_LIMIT) else {
        return Ok(None);
    };
    let code = code as u16;
    let Some(bytes) = hex_of(alloc, rest)? else {
        return Ok(None);
    };
    if may_follow(alloc, before, code, &bytes)? {
        Ok(Some(Value { code, bytes }))
    } else {
        Ok(None)
    }
}
