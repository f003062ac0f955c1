//! The items of a client: the addresses and prefixes of its IAs.

ghost use Rattle.std.specs.Prelude.{◌≡◌, ◌++◌, find, option_copied, option_map, IfOk, OnOk};
ghost use Rattle.std.specs.List.{list_any};
ghost use Rattle.lease6_text.specs.Leases.{ia_content, ias_content, lease6_content};
ghost use Rattle.lease6_text.specs.LineParts.{has_net, is_ia, is_of_net, is_same_kind};
ghost use Rattle.v6_items.specs.Items as own;

use crate::asks::IaAsk;
use crate::scope::{Cause6, Dates6, Parting6, Scope6};
use crate::times::earlier;
use lease6_text::{IaLease, Item6, Lease6};
use machine::has_come;
use net_types::{Net6, NoMemory};
use std::alloc::{AllocError, Global};
use v6_options::IaKind;

/// Whether an item's valid lifetime isn't over at a moment.
pub(crate) fn is_live(at: u64, item: Item6) -> bool
    ensures { result ≡ own.is_live at item }
{
    !has_come(item.valid, at)
}

/// Whether an item of the kept lease is the client's own.
pub(crate) fn is_in(scope: Scope6, item: Item6) -> bool
    ensures { result ≡ own.is_in scope item }
{
    match scope {
        Scope6::Nothing => false,
        Scope6::All => true,
        Scope6::Since(at) => is_live(at, item),
    }
}

pub(crate) fn is_same_net(net: Net6, item: Item6) -> bool
    ensures { result ≡ is_of_net net item }
{
    item.net.ip.number == net.ip.number && item.net.len == net.len
}

/// Whether an item with this net is among these.
pub(crate) fn has_net(items: &[Item6], net: Net6) -> bool
    ensures { result ≡ has_net items.now net }
{
    items.iter().any(|item| is_same_net(net, *item))
}

/// Whether two IAs are of one kind: both of addresses, or both of prefixes.
pub fn is_same_kind(one: IaKind, other: IaKind) -> bool
    ensures { result ≡ is_same_kind one other }
{
    match (one, other) {
        (IaKind::Na, IaKind::Na) | (IaKind::Pd, IaKind::Pd) => true,
        (IaKind::Na, IaKind::Pd) | (IaKind::Pd, IaKind::Na) => false,
    }
}

/// The first IA of this kind and IAID.
fn ia_found(kind: IaKind, iaid: u32, ias: &[IaLease]) -> Option<&IaLease>
    ensures { option_copied result ≡ find (λ ia. is_ia (kind, iaid) (ia_content ia)) ias.now }
{
    ias.iter()
        .find(|ia| is_same_kind(ia.kind, kind) && ia.iaid == iaid)
}

/// The items of an IA, by its kind and IAID.
#[tactic(auto, using(crate::proofs::FoundItems::items_found))]
pub(crate) fn items_at(kind: IaKind, iaid: u32, ias: &[IaLease]) -> &[Item6]
    ensures { result.now ≡ own.items_at kind iaid (ias_content ias.now) }
{
    match ia_found(kind, iaid, ias) {
        Some(ia) => &ia.items,
        None => &[],
    }
}

pub(crate) fn asked_at(ask: IaAsk, ias: &[IaLease]) -> &[Item6]
    ensures { result.now ≡ own.asked_at ask (ias_content ias.now) }
{
    items_at(ask.kind, ask.iaid, ias)
}

/// The IAs of a lease that there may be.
pub fn ias_of(kept: &Option<Lease6>) -> &[IaLease]
    ensures { ias_content result.now ≡ own.ias_of (option_map lease6_content kept.now) }
{
    match kept {
        Some(lease) => &lease.ias,
        None => &[],
    }
}

// ---- what goes and what stays

/// Whether an item of an IA of this kind stays.
fn stays_in(cause: Cause6, kind: IaKind, item: Item6) -> bool
    ensures { result ≡ own.stays_in cause kind item }
{
    match (cause, kind) {
        (Cause6::Lapse(at), _) => is_live(at, item),
        (Cause6::Duplicate(address), IaKind::Na) => item.net.ip.number != address.number,
        (Cause6::Duplicate(_), IaKind::Pd) => true,
    }
}

fn goes_of(cause: Cause6, scope: Scope6, ias: &[IaLease], ask: IaAsk) -> bool
    ensures { result ≡ own.goes_of cause scope (ias_content ias.now) ask }
{
    asked_at(ask, ias).iter().any(|item| is_in(scope, *item) && !stays_in(cause, ask.kind, *item))
}

fn stays_of(cause: Cause6, scope: Scope6, ias: &[IaLease], ask: IaAsk) -> bool
    ensures { result ≡ own.stays_of cause scope (ias_content ias.now) ask }
{
    asked_at(ask, ias).iter().any(|item| is_in(scope, *item) && stays_in(cause, ask.kind, *item))
}

fn some_go(cause: Cause6, scope: Scope6, ias: &[IaLease], asks: &[IaAsk]) -> bool
    ensures { result ≡ list_any (own.goes_of cause scope (ias_content ias.now)) asks.now }
{
    asks.iter().any(|ask| goes_of(cause, scope, ias, *ask))
}

fn some_stay(cause: Cause6, scope: Scope6, ias: &[IaLease], asks: &[IaAsk]) -> bool
    ensures { result ≡ list_any (own.stays_of cause scope (ias_content ias.now)) asks.now }
{
    asks.iter().any(|ask| stays_of(cause, scope, ias, *ask))
}

/// Whether some of the client's items go, and whether some stay.
pub fn parting_of(cause: Cause6, scope: Scope6, ias: &[IaLease], asks: &[IaAsk]) -> Parting6
    ensures { result ≡ own.parting_of cause scope (ias_content ias.now) asks.now }
{
    Parting6 {
        goes: some_go(cause, scope, ias, asks),
        stays: some_stay(cause, scope, ias, asks),
    }
}

/// The items of an IA of this kind that stay.
fn staying(
    alloc: Global,
    cause: Cause6,
    kind: IaKind,
    items: &[Item6],
) -> Result<Vec<Item6>, AllocError>
    ensures { IfOk result (λ left. left.items ≡ own.staying cause kind items.now) }
{
    items
        .iter()
        .copied()
        .filter(|item| stays_in(cause, kind, *item))
        .collect(alloc)
}

/// The IAs without the items that go; one that has none left goes too.
pub fn without(alloc: Global, cause: Cause6, ias: &[IaLease]) -> Result<Vec<IaLease>, NoMemory>
    ensures { IfOk result (λ left. ias_content left.items ≡ own.without cause (ias_content ias.now)) }
{
    let mut left = Vec::new(alloc);
    'ias: for ia in ias {
        let items = staying(alloc, cause, ia.kind, &ia.items)?;
        push_ia(&mut left, ia.kind, ia.iaid, items)?;
    }
    Ok(left)
}

/// Of the IAs that are asked for, in their order, what isn't over.
pub fn pruned_ias(
    alloc: Global,
    at: u64,
    ias: &[IaLease],
    asks: &[IaAsk],
) -> Result<Vec<IaLease>, NoMemory>
    ensures { IfOk result (λ left. ias_content left.items ≡ own.pruned_ias at (ias_content ias.now) asks.now) }
{
    let mut left = Vec::new(alloc);
    for ask in asks {
        let items = staying(alloc, Cause6::Lapse(at), ask.kind, asked_at(*ask, ias))?;
        push_ia(&mut left, ask.kind, ask.iaid, items)?;
    }
    Ok(left)
}

/// Adds an IA, unless it has no items.
pub(crate) fn push_ia(
    ias: &mut Vec<IaLease>,
    kind: IaKind,
    iaid: u32,
    items: Vec<Item6>,
) -> Result<(), NoMemory>
    ensures { OnOk result (ias_content ias.new.items ≡ ias_content ias.old.items ++ own.ia_with kind iaid items.items) }
{
    if !items.is_empty() {
        ias.push(IaLease { kind, iaid, items })?;
    }
    Ok(())
}

// ---- their moments

/// When the first of the items isn't valid any more.
fn lapse_of(scope: Scope6, items: &[Item6]) -> Option<u64>
    ensures { result ≡ own.lapse_of scope items.now }
{
    items
        .iter()
        .filter(|item| is_in(scope, **item))
        .fold(None, |first, item| earlier(first, item.valid))
}

pub(crate) fn lapse_in(scope: Scope6, ias: &[IaLease], asks: &[IaAsk]) -> Option<u64>
    ensures { result ≡ own.lapse_in scope (ias_content ias.now) asks.now }
{
    asks.iter().fold(None, |first, ask| {
        earlier(first, lapse_of(scope, asked_at(*ask, ias)))
    })
}

/// The moments of a lease that there may be.
pub fn dates_of(scope: Scope6, kept: &Option<Lease6>, asks: &[IaAsk]) -> Dates6
    ensures { result ≡ own.dates_of scope (option_map lease6_content kept.now) asks.now }
{
    match kept {
        Some(lease) => Dates6 {
            t1: lease.t1,
            t2: lease.t2,
            lapse: lapse_in(scope, &lease.ias, asks),
        },
        None => Dates6 {
            t1: None,
            t2: None,
            lapse: None,
        },
    }
}
