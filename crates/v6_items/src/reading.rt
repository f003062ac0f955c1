//! What a client reads of a server's message.

ghost use Rattle.std.specs.Prelude.{◌≡◌, ◌++◌, ◌-◌, ◌^◌, ◌≤◌, [], length, take, IfOk, OnOk};
ghost use Rattle.std.specs.List.{cons_option};
ghost use Rattle.std.specs.Option.{option_map};
ghost use Rattle.v6_options.specs.IaViews.{ia_shown};
ghost use Rattle.v6_options.specs.Ias.{ias_in};
ghost use Rattle.v6_message.specs.Shown.{message_shown};
ghost use Rattle.v6_items.specs.Reading as reading;

use crate::asks::IaAsk;
use crate::items::is_same_kind;
use lease6_text::{ITEM_LIMIT, LONGEST_DELEGATED, SHORTEST_DELEGATED};
use net_types::{Ip6, Net6, NoMemory};
use std::alloc::Global;
use v6_message::Msg6;
use v6_options::{IaKind, IaView, ItemSaid, Status, ia_views};

/// How many addresses there are with one first byte.
const WITH_FIRST_BYTE: u128 = 1 << 120;
/// How many addresses there are with the same ten bits in front.
const WITH_TEN_BITS: u128 = 1 << 118;
/// The ten bits in front of a link-local address (RFC 4291, section 2.5.6).
const LINK_LOCAL: u128 = 0x3fa;

/// Whether an address or a prefix may be used: its first byte is neither 0 nor 255, and it isn't link-local.
fn is_usable(ip: Ip6) -> bool
    ensures { result ≡ reading.is_usable ip }
{
    ip.number / WITH_FIRST_BYTE != 0
        && ip.number / WITH_FIRST_BYTE != 255
        && ip.number / WITH_TEN_BITS != LINK_LOCAL
}

fn has_len(kind: IaKind, len: u8) -> bool
    ensures { result ≡ reading.has_len kind len }
{
    match kind {
        IaKind::Na => true,
        IaKind::Pd => SHORTEST_DELEGATED <= len && len <= LONGEST_DELEGATED,
    }
}

/// Whether an item is read.
fn is_read(kind: IaKind, said: ItemSaid) -> bool
    ensures { result ≡ reading.is_read kind said }
{
    said.preferred <= said.valid && is_usable(said.net.ip) && has_len(kind, said.net.len)
}

/// How many addresses a prefix of this length has.
fn address_count(len: u8) -> u128
    requires { 1 ≤ len }
    ensures { result ≡ 2 ^ (128 - len) }
{
    2u128.pow(u32::from(128u8.saturating_sub(len)))
}

/// A prefix without the bits past its length.
fn prefix_cleared(net: Net6) -> Net6
    requires { 1 ≤ net.len }
    ensures { result ≡ reading.net_cleared net }
{
    Net6 {
        ip: Ip6 {
            number: net.ip.number - net.ip.number % address_count(net.len),
        },
        len: net.len,
    }
}

/// The item as it is read: none where it isn't, and a prefix without the bits past its length.
pub fn read_item(kind: IaKind, said: ItemSaid) -> Option<ItemSaid>
    ensures { result ≡ reading.read_item kind said }
{
    if !is_read(kind, said) {
        return None;
    }
    match kind {
        IaKind::Na => Some(said),
        IaKind::Pd => Some(ItemSaid {
            net: prefix_cleared(said.net),
            ..said
        }),
    }
}

/// Whether T1 isn't after T2, where there is one.
fn are_ordered(t1: u32, t2: u32) -> bool
    ensures { result ≡ reading.are_ordered t1 t2 }
{
    !(t1 > t2 && t2 > 0)
}

/// Whether an IA may be read: its status says success, and its T1 isn't after its T2.
pub fn is_readable(ia: IaView) -> bool
    ensures { result ≡ reading.is_readable (ia_shown ia.entry) }
{
    ia.status().is_success() && are_ordered(ia.t1, ia.t2)
}

/// Adds an item where it is read, and fewer than four are there.
fn push_read(saids: &mut Vec<ItemSaid>, kind: IaKind, said: ItemSaid) -> Result<(), NoMemory>
    requires { length saids.old.items ≤ 4 }
    ensures saids { OnOk result
        (saids.new.items ≡ take 4 (saids.old.items ++ cons_option (reading.read_item kind said) [])) }
    ensures few { length saids.new.items ≤ 4 }
{
    if saids.len() >= ITEM_LIMIT {
        return Ok(());
    }
    if let Some(read) = read_item(kind, said) {
        saids.push(read)?;
    }
    Ok(())
}

/// The items of an IA that are read, the first four of them.
fn collected(alloc: Global, ia: IaView) -> Result<Vec<ItemSaid>, NoMemory>
    ensures saids { IfOk result (λ saids. saids.items ≡ reading.front_items (ia_shown ia.entry)) }
    ensures few { IfOk result (λ saids. length saids.items ≤ 4) }
{
    let mut saids = Vec::new(alloc);
    'items: for said in ia.items() {
        push_read(&mut saids, ia.kind, said)?;
    }
    Ok(saids)
}

/// The items of an IA that count.
pub(crate) fn read_items(alloc: Global, ia: IaView) -> Result<Vec<ItemSaid>, NoMemory>
    ensures saids { IfOk result (λ saids. saids.items ≡ reading.read_items (ia_shown ia.entry)) }
    ensures few { IfOk result (λ saids. length saids.items ≤ 4) }
{
    if !is_readable(ia) {
        return Ok(Vec::new(alloc));
    }
    collected(alloc, ia)
}

/// Whether an item of an IA may be used.
fn some_read(ia: IaView) -> bool
    ensures { result ≡ reading.some_read (ia_shown ia.entry) }
{
    'items: for said in ia.items() {
        if is_read(ia.kind, said) {
            return true;
        }
    }
    false
}

fn has_read(ia: IaView) -> bool
    ensures { result ≡ reading.has_read (ia_shown ia.entry) }
{
    is_readable(ia) && some_read(ia)
}

fn is_no_binding(ia: IaView) -> bool
    ensures { result ≡ reading.is_no_binding (ia_shown ia.entry) }
{
    ia.status().number == Status::NO_BINDING.number
}

/// Whether the server knows nothing of the IA.
pub fn is_unbound(ia: Option<IaView>) -> bool
    ensures { result ≡ reading.is_unbound (option_map ia_shown ia.entry) }
{
    match ia {
        Some(ia) => is_no_binding(ia),
        None => false,
    }
}

/// The items that count of an IA that a message may have.
pub fn saids_of(alloc: Global, ia: Option<IaView>) -> Result<Vec<ItemSaid>, NoMemory>
    ensures saids { IfOk result (λ saids. saids.items ≡ reading.saids_of (option_map ia_shown ia.entry)) }
    ensures few { IfOk result (λ saids. length saids.items ≤ 4) }
{
    match ia {
        Some(ia) => read_items(alloc, ia),
        None => Ok(Vec::new(alloc)),
    }
}

/// Whether an IA is of a kind and an IAID.
pub fn is_for(ask: IaAsk, ia: IaView) -> bool
    ensures { result ≡ reading.is_for ask (ia_shown ia.entry) }
{
    is_same_kind(ia.kind, ask.kind) && ia.iaid == ask.iaid
}

/// The first IA among options that is of a kind and an IAID.
pub fn ia_for(ask: IaAsk, options: &[u8]) -> Option<IaView<'_>>
    ensures { option_map ia_shown result ≡ reading.ia_for ask (ias_in options.now) }
{
    let mut views = ia_views(options);
    'ias: while let Some(ia) = views.next() {
        if is_for(ask, ia) {
            return Some(ia);
        }
    }
    None
}

fn serves_by(ia: Option<IaView>) -> bool
    ensures { result ≡ reading.serves_by (option_map ia_shown ia.entry) }
{
    match ia {
        Some(ia) => is_no_binding(ia) || has_read(ia),
        None => false,
    }
}

/// Whether a message has something for an IA.
fn serves_for(ask: IaAsk, options: &[u8]) -> bool
    ensures { result ≡ reading.serves_by (reading.ia_for ask (ias_in options.now)) }
{
    serves_by(ia_for(ask, options))
}

fn some_served(asks: &[IaAsk], options: &[u8]) -> bool
    ensures { result ≡ reading.some_served asks.now (ias_in options.now) }
{
    asks.iter().any(|ask| serves_for(*ask, options))
}

/// Whether a message serves the client that asks for these.
pub fn serves(asks: &[IaAsk], message: &Msg6) -> bool
    ensures { result ≡ reading.serves asks.now (message_shown message.now) }
{
    message.status.is_success() && some_served(asks, message.options)
}
