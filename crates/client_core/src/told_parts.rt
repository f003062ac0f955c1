//! What the interfaces tell the resolver (resolv.conf(5)), as it is kept: of each a part of IPv4, and then one of IPv6.
//! A part that tells nothing has neither servers nor names, and so it doesn't count in the text.

ghost use Rattle.std.specs.Prelude.{◌≡◌, ◌<◌, ◌+◌, ◌*◌, ◌++◌, false, length, slice_set, IfOk, OnOk};
ghost use Rattle.std.specs.Option.{option_map};
ghost use Rattle.std.specs.String.{string_bytes};
ghost use Rattle.world.specs.Rows.{IsInterface};
ghost use Rattle.lease6_text.specs.Leases.{lease6_content};
ghost use Rattle.resolver_text.specs.Parts.{part_content, parts_content};
ghost use Rattle.resolver_text.specs.ResolverText.{resolver_text};
ghost use Rattle.client_model.specs.Fitting.{AreIfaces};
ghost use Rattle.client_model.specs.ResolverParts.{some_text};
ghost use Rattle.client_core.specs.ToldParts.{all_told, nothing_told, told4, told6, told_parts, told_with};
ghost use Rattle.client_core.specs.Touched.{Compares};

use crate::effects::Resolver;
use crate::resolver_parts::{has_part4, part_of, part4_with, part6_with};
use crate::same_parts::is_same;
use client_model::Iface;
use iface_core::{iface_lease, iface_lease6};
use lease6_text::Lease6;
use net_types::NoMemory;
use resolver_text::{Family, Part, resolver};
use settings::Managed;
use std::alloc::Global;

/// A part that tells nothing.
fn nothing_told(alloc: Global, managed: &Managed, family: Family) -> Part
    requires { IsInterface managed.now.spec.index.number }
    ensures { part_content result ≡ nothing_told managed.now family }
{
    part_of(managed, family, Vec::new(alloc), Vec::new(alloc))
}

/// What an interface tells of IPv4.
fn told4(alloc: Global, iface: &Iface) -> Result<Part, NoMemory>
    requires { IsInterface iface.now.managed.spec.index.number }
    ensures { IfOk result (λ part. part_content part ≡ told4 iface.now) }
{
    if has_part4(iface) {
        part4_with(alloc, &iface.managed, iface_lease(iface))
    } else {
        Ok(nothing_told(alloc, &iface.managed, Family::V4))
    }
}

/// What an interface tells of IPv6, with this lease.
fn told6(alloc: Global, managed: &Managed, lease: Option<&Lease6>) -> Result<Part, NoMemory>
    requires { IsInterface managed.now.spec.index.number }
    ensures { IfOk result
        (λ part. part_content part ≡ told6 managed.now (option_map (λ lease. lease6_content lease.now) lease.entry)) }
{
    match lease {
        Some(lease) => part6_with(alloc, managed, lease),
        None => Ok(nothing_told(alloc, managed, Family::V6)),
    }
}

/// Appends what an interface tells.
fn push_told(parts: &mut Vec<Part>, iface: &Iface) -> Result<(), NoMemory>
    requires { IsInterface iface.now.managed.spec.index.number }
    ensures { OnOk result (parts_content parts.new.items ≡ parts_content parts.old.items ++ told_parts iface.now) }
{
    let alloc = *parts.allocator();
    parts.push(told4(alloc, iface)?)?;
    parts.push(told6(alloc, &iface.managed, iface_lease6(iface))?)?;
    Ok(())
}

/// What these interfaces tell.
pub fn told_of(alloc: Global, ifaces: &[Iface]) -> Result<Vec<Part>, NoMemory>
    requires { AreIfaces ifaces.now }
    ensures { IfOk result (λ parts. parts_content parts.items ≡ all_told ifaces.now) }
{
    let mut parts = Vec::new(alloc);
    for iface in ifaces {
        push_told(&mut parts, iface)?;
    }
    Ok(parts)
}

/// Brings a part up to date, and says whether it is another one.
fn renew_part(kept: &mut Part, part: Part) -> Resolver
    ensures part { part_content kept.new ≡ part_content part }
    ensures compares { Compares result (part_content kept.old) (part_content part) }
{
    if is_same(kept, &part) {
        return Resolver::Same;
    }
    *kept = part;
    Resolver::Other
}

/// Puts the parts of a place there, and says whether they are others.
fn put_parts(parts: &mut [Part], place: usize, four: Part, six: Part) -> Resolver
    requires { 2 * place + 1 < length parts.old }
    ensures parts { parts_content parts.new
        ≡ slice_set (slice_set (parts_content parts.old) (2 * place) (part_content four)) (2 * place + 1)
        (part_content six) }
    ensures compares { Compares result (parts_content parts.old) (parts_content parts.new) }
{
    let first = renew_part(&mut parts[2 * place], four);
    let last = renew_part(&mut parts[2 * place + 1], six);
    first.or(last)
}

/// Brings what the interface at a place tells up to date, where it may differ, and says whether it is something else.
pub fn renew_parts(
    alloc: Global,
    parts: &mut [Part],
    place: usize,
    iface: &Iface,
    may_differ: bool,
) -> Result<Resolver, NoMemory>
    requires index { IsInterface iface.now.managed.spec.index.number }
    requires place { 2 * place + 1 < length parts.old }
    requires same { may_differ ≡ false → told_with place iface.now (parts_content parts.old) ≡ parts_content parts.old }
    ensures parts { OnOk result (parts_content parts.new ≡ told_with place iface.now (parts_content parts.old)) }
    ensures compares { IfOk result (λ resolver. Compares resolver (parts_content parts.old) (parts_content parts.new)) }
{
    if !may_differ {
        return Ok(Resolver::Same);
    }
    let four = told4(alloc, iface)?;
    let six = told6(alloc, &iface.managed, iface_lease6(iface))?;
    Ok(put_parts(parts, place, four, six))
}

/// The text, where it isn't empty.
fn some_text(text: String) -> Option<String>
    ensures { option_map string_bytes result ≡ some_text (string_bytes text) }
{
    if text.is_empty() {
        return None;
    }
    Some(text)
}

/// The text of these parts; none where they tell nothing.
pub fn parts_text(alloc: Global, parts: &[Part]) -> Result<Option<String>, NoMemory>
    ensures { IfOk result (λ text. option_map string_bytes text ≡ some_text (resolver_text (parts_content parts.now))) }
{
    let text = resolver(alloc, parts)?;
    Ok(some_text(text))
}
