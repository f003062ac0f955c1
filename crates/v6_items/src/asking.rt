//! The IAs that a client's messages name.

ghost use Rattle.std.specs.Prelude.{◌≡◌, ◌≤◌, ◌++◌, ◌∷◌, [], length, map, IfOk, OnOk};
ghost use Rattle.v6_options.specs.Ias.{ias_in};
ghost use Rattle.v6_message.specs.Requests.{asked_content};
ghost use Rattle.lease6_text.specs.Leases.{ias_content};
ghost use Rattle.v6_items.specs.Asking as asking;

use crate::asks::IaAsk;
use crate::items::{asked_at, has_net, is_in, is_live, is_same_net, items_at};
use crate::reading::{ia_for, saids_of};
use crate::scope::Scope6;
use lease6_text::{ITEM_LIMIT, IaLease, Item6};
use net_types::{Ip6, Net6, NoMemory};
use std::alloc::{AllocError, Global};
use v6_message::IaAsked;
use v6_options::{IaKind, ItemSaid};

/// Adds an IA that names these.
fn push_asked(
    ias: &mut Vec<IaAsked>,
    kind: IaKind,
    iaid: u32,
    items: Vec<Net6>,
) -> Result<(), NoMemory>
    requires { length items.items ≤ 4 }
    ensures { OnOk result
        (map asked_content ias.new.items
        ≡ map asked_content ias.old.items ++ asking.asked_with kind iaid items.items ∷ []) }
{
    ias.push(IaAsked { kind, iaid, items })?;
    Ok(())
}

/// Adds an IA that names these, unless it names nothing.
fn push_named(
    ias: &mut Vec<IaAsked>,
    kind: IaKind,
    iaid: u32,
    items: Vec<Net6>,
) -> Result<(), NoMemory>
    requires { length items.items ≤ 4 }
    ensures { OnOk result
        (map asked_content ias.new.items ≡ map asked_content ias.old.items ++ asking.named_with kind iaid items.items) }
{
    if !items.is_empty() {
        push_asked(ias, kind, iaid, items)?;
    }
    Ok(())
}

// ---- SOLICIT

/// The prefix that is wished for.
fn hinted(alloc: Global, ask: IaAsk) -> Result<Vec<Net6>, NoMemory>
    ensures nets { IfOk result (λ nets. nets.items ≡ asking.hinted ask.kind ask.hint) }
    ensures few { IfOk result (λ nets. length nets.items ≤ 1) }
{
    let mut nets = Vec::new(alloc);
    match ask.kind {
        IaKind::Pd if ask.hint != 0 => nets.push(Net6 {
            ip: Ip6 { number: 0 },
            len: ask.hint,
        })?,
        IaKind::Pd | IaKind::Na => {}
    }
    Ok(nets)
}

/// The IAs of a SOLICIT.
pub fn ias_solicited(alloc: Global, asks: &[IaAsk]) -> Result<Vec<IaAsked>, NoMemory>
    ensures { IfOk result (λ ias. map asked_content ias.items ≡ map asking.ia_solicited asks.now) }
{
    let mut ias = Vec::new(alloc);
    for ask in asks {
        let nets = hinted(alloc, *ask)?;
        push_asked(&mut ias, ask.kind, ask.iaid, nets)?;
    }
    Ok(ias)
}

// ---- the items of the client

/// The addresses and prefixes of the items that are the client's own, four at most.
fn nets_in(alloc: Global, scope: Scope6, items: &[Item6]) -> Result<Vec<Net6>, AllocError>
    ensures nets { IfOk result (λ nets. nets.items ≡ asking.nets_in scope items.now) }
    ensures few { IfOk result (λ nets. length nets.items ≤ 4) }
{
    items
        .iter()
        .filter(|item| is_in(scope, **item))
        .map(|item| item.net)
        .take(ITEM_LIMIT)
        .collect(alloc)
}

/// The IAs of a message that asks for the client's items.
pub fn ias_asked(
    alloc: Global,
    scope: Scope6,
    ias: &[IaLease],
    asks: &[IaAsk],
) -> Result<Vec<IaAsked>, NoMemory>
    ensures { IfOk result (λ all. map asked_content all.items ≡ asking.ias_asked scope (ias_content ias.now) asks.now) }
{
    let mut all = Vec::new(alloc);
    for ask in asks {
        let nets = nets_in(alloc, scope, asked_at(*ask, ias))?;
        push_asked(&mut all, ask.kind, ask.iaid, nets)?;
    }
    Ok(all)
}

/// The IAs of a RELEASE.
pub fn ias_released(
    alloc: Global,
    ias: &[IaLease],
    asks: &[IaAsk],
) -> Result<Vec<IaAsked>, NoMemory>
    ensures { IfOk result (λ all. map asked_content all.items ≡ asking.ias_released (ias_content ias.now) asks.now) }
{
    let mut all = Vec::new(alloc);
    for ask in asks {
        let nets = nets_in(alloc, Scope6::All, asked_at(*ask, ias))?;
        push_named(&mut all, ask.kind, ask.iaid, nets)?;
    }
    Ok(all)
}

// ---- what a server offers

fn nets_said(alloc: Global, saids: &[ItemSaid]) -> Result<Vec<Net6>, AllocError>
    requires { length saids.now ≤ 4 }
    ensures nets { IfOk result (λ nets. nets.items ≡ asking.nets_said saids.now) }
    ensures few { IfOk result (λ nets. length nets.items ≤ 4) }
{
    saids.iter().map(|said| said.net).collect(alloc)
}

/// What a message offers for the IAs that are asked for.
pub fn ias_offered(alloc: Global, options: &[u8], asks: &[IaAsk]) -> Result<Vec<IaAsked>, NoMemory>
    ensures { IfOk result (λ all. map asked_content all.items ≡ asking.ias_offered (ias_in options.now) asks.now) }
{
    let mut all = Vec::new(alloc);
    for ask in asks {
        let saids = saids_of(alloc, ia_for(*ask, options))?;
        let nets = nets_said(alloc, &saids)?;
        push_asked(&mut all, ask.kind, ask.iaid, nets)?;
    }
    Ok(all)
}

// ---- what is declined

/// The nets that aren't among the items any more.
fn nets_gone(alloc: Global, items: &[Item6], nets: &[Net6]) -> Result<Vec<Net6>, AllocError>
    requires { length nets.now ≤ 4 }
    ensures nets { IfOk result (λ gone. gone.items ≡ asking.nets_gone items.now nets.now) }
    ensures few { IfOk result (λ gone. length gone.items ≤ 4) }
{
    nets.iter()
        .copied()
        .filter(|net| !has_net(items, *net))
        .collect(alloc)
}

/// The IAs of a DECLINE: what stood in each and isn't held any more.
pub fn ias_declined(
    alloc: Global,
    ias: &[IaLease],
    stood: &[IaAsked],
) -> Result<Vec<IaAsked>, NoMemory>
    ensures { IfOk result
        (λ all. map asked_content all.items ≡ asking.ias_declined (ias_content ias.now) (map asked_content stood.now)) }
{
    let mut all = Vec::new(alloc);
    'stood: for ia in stood {
        let nets = nets_gone(alloc, items_at(ia.kind, ia.iaid, ias), &ia.items)?;
        push_named(&mut all, ia.kind, ia.iaid, nets)?;
    }
    Ok(all)
}

/// Whether an item with this net is over.
fn is_over_in(at: u64, items: &[Item6], net: Net6) -> bool
    ensures { result ≡ asking.is_over_in at items.now net }
{
    items
        .iter()
        .any(|item| is_same_net(net, *item) && !is_live(at, *item))
}

fn nets_lapsed(
    alloc: Global,
    at: u64,
    items: &[Item6],
    nets: &[Net6],
) -> Result<Vec<Net6>, AllocError>
    requires { length nets.now ≤ 4 }
    ensures nets { IfOk result (λ left. left.items ≡ asking.nets_lapsed at items.now nets.now) }
    ensures few { IfOk result (λ left. length left.items ≤ 4) }
{
    nets.iter()
        .copied()
        .filter(|net| !is_over_in(at, items, *net))
        .collect(alloc)
}

/// What stood in each IA, without what is over.
pub fn ias_lapsed(
    alloc: Global,
    at: u64,
    ias: &[IaLease],
    stood: &[IaAsked],
) -> Result<Vec<IaAsked>, NoMemory>
    ensures { IfOk result
        (λ all. map asked_content all.items
        ≡ asking.ias_lapsed at (ias_content ias.now) (map asked_content stood.now)) }
{
    let mut all = Vec::new(alloc);
    'stood: for ia in stood {
        let nets = nets_lapsed(alloc, at, items_at(ia.kind, ia.iaid, ias), &ia.items)?;
        push_asked(&mut all, ia.kind, ia.iaid, nets)?;
    }
    Ok(all)
}

/// A copy of what stands in each IA.
pub fn ias_copied(alloc: Global, stood: &[IaAsked]) -> Result<Vec<IaAsked>, NoMemory>
    ensures { IfOk result (λ all. map asked_content all.items ≡ map asked_content stood.now) }
{
    let mut all = Vec::new(alloc);
    'stood: for ia in stood {
        let nets = ia.items.to_vec(alloc)?;
        push_asked(&mut all, ia.kind, ia.iaid, nets)?;
    }
    Ok(all)
}
