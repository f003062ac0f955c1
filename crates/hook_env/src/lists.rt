//! Lists of texts, parted by blanks.
ghost use Rattle.std.specs.Prelude.{◌≡◌, ◌++◌, flat_map, map, IfOk, OnOk};
ghost use Rattle.std.specs.String.{string_bytes};
ghost use Rattle.net_types.specs.AddressText.{ip4_text, ip6_text, net6_text};
ghost use Rattle.hook_env.specs.Lists.{after_blank, listed, route_text};

use net_types::{Ip4, Ip6, Net6};
use std::alloc::{AllocError, Global};
use v4_options::ClasslessRoute;

/// Appends each text behind a blank.
fn add_others(list: &mut String, texts: &[String]) -> Result<(), AllocError>
    ensures { OnOk result
        (string_bytes list.new
        ≡ string_bytes list.old ++ flat_map after_blank (map (λ text. string_bytes text) texts.now)) }
{
    for text in texts {
        list.push_str(" ")?;
        list.push_str(text)?;
    }
    Ok(())
}

/// The texts with a blank between each two.
pub(crate) fn listed(alloc: Global, texts: &[String]) -> Result<String, AllocError>
    ensures { IfOk result (λ list. string_bytes list ≡ listed (map (λ text. string_bytes text) texts.now)) }
{
    match texts {
        [] => Ok(String::new(alloc)),
        [first, others @ ..] => {
            let mut list = String::from_str(alloc, first)?;
            add_others(&mut list, others)?;
            Ok(list)
        }
    }
}

/// The texts of addresses.
pub(crate) fn ip4_texts(alloc: Global, all: &[Ip4]) -> Result<Vec<String>, AllocError>
    ensures { IfOk result (λ texts. map (λ text. string_bytes text) texts.items ≡ map ip4_text all.now) }
{
    let mut texts = Vec::with_capacity(alloc, all.len())?;
    for ip in all {
        texts.push(format!(in alloc; "{ip}")?)?;
    }
    Ok(texts)
}

/// The texts of IPv6 addresses.
pub(crate) fn ip6_texts(alloc: Global, all: &[Ip6]) -> Result<Vec<String>, AllocError>
    ensures { IfOk result (λ texts. map (λ text. string_bytes text) texts.items ≡ map ip6_text all.now) }
{
    let mut texts = Vec::with_capacity(alloc, all.len())?;
    for ip in all {
        texts.push(format!(in alloc; "{ip}")?)?;
    }
    Ok(texts)
}

/// A route's destination, a blank and its gateway.
fn route_text(alloc: Global, route: ClasslessRoute) -> Result<String, AllocError>
    ensures { IfOk result (λ text. string_bytes text ≡ route_text route) }
{
    format!(in alloc; "{} {}", route.dest, route.via)
}

/// The texts of routes.
pub(crate) fn route_texts(
    alloc: Global,
    routes: &[ClasslessRoute],
) -> Result<Vec<String>, AllocError>
    ensures { IfOk result (λ texts. map (λ text. string_bytes text) texts.items ≡ map route_text routes.now) }
{
    let mut texts = Vec::with_capacity(alloc, routes.len())?;
    for route in routes {
        texts.push(route_text(alloc, *route)?)?;
    }
    Ok(texts)
}
