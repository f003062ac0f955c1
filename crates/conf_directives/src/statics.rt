//! Static values: KEY=VALUE, up to the end of the line.
ghost use Rattle.std.specs.Prelude.{◌≡◌, [], Some, option_map, map, IfOk};
ghost use Rattle.std.specs.List.{list_all};
ghost use Rattle.conf_words.specs.Marks.{is_of_word};
ghost use Rattle.conf_directives.specs.Contents.{said_content, static_content};
ghost use Rattle.conf_directives.specs.Names.{named};
ghost use Rattle.conf_directives.specs.declared.statics.StaticName.TheVariants as names;
ghost use Rattle.conf_directives.specs.Statics.{is_key, named_value, static_by, static_rows, static_said, value_of};
ghost use Rattle.conf_values.specs.Words.{members_of};

use crate::names::named;
use crate::values::{Directive, LineSaid, StaticValue};
use conf_values::{domain_names, domain_text, members_of, one_or_more, only, own_net};
use net_types::{NoMemory, net6_of, split_at_byte};
use std::alloc::Global;

/// Which value a key is of.
#[derive(Clone, Copy)]
pub(crate) enum StaticName {
    Address,
    Routers,
    NameServers,
    DomainName,
    DomainSearch,
    Address6,
}

fn static_named(key: &[u8]) -> Option<StaticName>
    ensures { result ≡ named static_rows key.now }
{
    let rows = [
        ("ip_address", StaticName::Address),
        ("routers", StaticName::Routers),
        ("domain_name_servers", StaticName::NameServers),
        ("domain_name", StaticName::DomainName),
        ("domain_search", StaticName::DomainSearch),
        ("ip6_address", StaticName::Address6),
    ];
    named(&rows, key)
}

fn address(members: &[&[u8]]) -> Option<StaticValue>
    ensures { option_map static_content result ≡ value_of names.Address (map (λ member. member.now) members.now) }
{
    Some(StaticValue::Address(own_net(only(members)?)?))
}

fn address6(members: &[&[u8]]) -> Option<StaticValue>
    ensures { option_map static_content result ≡ value_of names.Address6 (map (λ member. member.now) members.now) }
{
    Some(StaticValue::Address6(net6_of(only(members)?)?))
}

fn own_domain(alloc: Global, members: &[&[u8]]) -> Result<Option<StaticValue>, NoMemory>
    ensures { IfOk result
        (λ value. option_map static_content value
        ≡ value_of names.DomainName (map (λ member. member.now) members.now)) }
{
    let Some(text) = only(members) else {
        return Ok(None);
    };
    Ok(domain_text(alloc, text)?.map(StaticValue::DomainName))
}

/// The value of a name, by its members.
fn value_of(
    alloc: Global,
    name: StaticName,
    members: &[&[u8]],
) -> Result<Option<StaticValue>, NoMemory>
    ensures { IfOk result
        (λ value. option_map static_content value ≡ value_of name (map (λ member. member.now) members.now)) }
{
    match name {
        StaticName::Address => Ok(address(members)),
        StaticName::Routers => Ok(one_or_more(alloc, members)?.map(StaticValue::Routers)),
        StaticName::NameServers => Ok(one_or_more(alloc, members)?.map(StaticValue::NameServers)),
        StaticName::DomainName => own_domain(alloc, members),
        StaticName::DomainSearch => {
            Ok(domain_names(alloc, members)?.map(StaticValue::DomainSearch))
        }
        StaticName::Address6 => Ok(address6(members)),
    }
}

fn known_value<'a>(
    alloc: Global,
    name: StaticName,
    value: &[u8],
) -> Result<Option<LineSaid<'a>>, NoMemory>
    ensures { IfOk result (λ said. option_map said_content said ≡ named_value [] value.now (Some name)) }
{
    let members = members_of(alloc, value)?;
    match value_of(alloc, name, &members)? {
        Some(value) => Ok(Some(LineSaid::taken(alloc, Directive::Static(value)))),
        None => Ok(None),
    }
}

fn named_value<'a>(
    alloc: Global,
    key: &'a [u8],
    value: &[u8],
) -> Result<Option<LineSaid<'a>>, NoMemory>
    ensures { IfOk result
        (λ said. option_map said_content said ≡ named_value key.now value.now (named static_rows key.now)) }
{
    match static_named(key) {
        Some(name) => known_value(alloc, name, value),
        None => Ok(Some(LineSaid::noticed(alloc, key)?)),
    }
}

fn is_of_word(byte: u8) -> bool
    ensures { result ≡ is_of_word byte }
{
    byte != b' ' && byte != b'\t'
}

fn are_of_word(text: &[u8]) -> bool
    ensures { result ≡ list_all is_of_word text.now }
{
    text.iter().all(|byte| is_of_word(*byte))
}

fn is_key(key: &[u8]) -> bool
    ensures { result ≡ is_key key.now }
{
    !key.is_empty() && are_of_word(key)
}

fn static_by<'a>(
    alloc: Global,
    key: &'a [u8],
    value: &[u8],
) -> Result<Option<LineSaid<'a>>, NoMemory>
    ensures { IfOk result (λ said. option_map said_content said ≡ static_by (key.now, value.now)) }
{
    if is_key(key) {
        named_value(alloc, key, value)
    } else {
        Ok(None)
    }
}

/// What the argument of a `static` line says.
pub(crate) fn static_said<'a>(
    alloc: Global,
    text: &'a [u8],
) -> Result<Option<LineSaid<'a>>, NoMemory>
    ensures { IfOk result (λ said. option_map said_content said ≡ static_said text.now) }
{
    match split_at_byte(text, b'=') {
        Some((key, value)) => static_by(alloc, key, value),
        None => Ok(None),
    }
}
