//! Directives whose arguments are one value or a list, each of a given form.
ghost use Rattle.std.specs.Prelude.{◌≡◌, option_map, map, IfOk};
ghost use Rattle.conf_directives.specs.Contents.{directive_content, identifier_content};
ghost use Rattle.conf_directives.specs.Says.{client_id, value_said, vendor_class};
ghost use Rattle.conf_directives.specs.declared.names.ValueName.TheVariants as values;

use crate::names::{InterfaceList, SecondsName, ValueName};
use crate::values::{Directive, Identifier};
use conf_values::{TEXT_LIMIT, identifier, one_or_more, only, printed, printed_text, variable};
use net_types::{NoMemory, number_of};
use std::alloc::{AllocError, Global};

/// One more than the most seconds.
pub const SECONDS_LIMIT: u64 = 86_401;

/// One more than the largest metric.
const METRIC_LIMIT: u64 = 1 << 32;

fn seconds(name: SecondsName, arguments: &[&[u8]]) -> Option<Directive>
    ensures { option_map directive_content result
        ≡ value_said (values.Seconds name) (map (λ text. text.now) arguments.now) }
{
    let seconds = number_of(only(arguments)?, SECONDS_LIMIT)?;
    Some(Directive::Seconds(name, seconds as u32))
}

fn metric(arguments: &[&[u8]]) -> Option<Directive>
    ensures { option_map directive_content result ≡ value_said values.Metric (map (λ text. text.now) arguments.now) }
{
    let metric = number_of(only(arguments)?, METRIC_LIMIT)?;
    Some(Directive::Metric(metric as u32))
}

fn copied(alloc: Global, text: Option<&[u8]>) -> Result<Option<Vec<u8>>, AllocError>
    ensures { IfOk result (λ copy. option_map (λ v. v.items) copy ≡ option_map (λ t. t.now) text.entry) }
{
    match text {
        Some(text) => Ok(Some(text.to_vec(alloc)?)),
        None => Ok(None),
    }
}

fn vendor_class(alloc: Global, arguments: &[&[u8]]) -> Result<Option<Vec<u8>>, NoMemory>
    ensures { IfOk result
        (λ class. option_map (λ v. v.items) class ≡ vendor_class (map (λ text. text.now) arguments.now)) }
{
    match arguments {
        [] => Ok(Some(Vec::new(alloc))),
        [text] => Ok(copied(alloc, printed(text, TEXT_LIMIT))?),
        _ => Ok(None),
    }
}

fn client_id(alloc: Global, arguments: &[&[u8]]) -> Result<Option<Identifier>, NoMemory>
    ensures { IfOk result (λ id. option_map identifier_content id ≡ client_id (map (λ text. text.now) arguments.now)) }
{
    match arguments {
        [] => Ok(Some(Identifier::Hardware)),
        [text] => Ok(identifier(alloc, text)?.map(Identifier::Bytes)),
        _ => Ok(None),
    }
}

fn script(alloc: Global, arguments: &[&[u8]]) -> Result<Option<Directive>, NoMemory>
    ensures { IfOk result
        (λ said. option_map directive_content said ≡ value_said values.Script (map (λ text. text.now) arguments.now)) }
{
    let Some(text) = only(arguments) else {
        return Ok(None);
    };
    Ok(printed_text(alloc, text, TEXT_LIMIT)?.map(Directive::Script))
}

fn env(alloc: Global, arguments: &[&[u8]]) -> Result<Option<Directive>, NoMemory>
    ensures { IfOk result
        (λ said. option_map directive_content said ≡ value_said values.Env (map (λ text. text.now) arguments.now)) }
{
    let Some(text) = only(arguments) else {
        return Ok(None);
    };
    Ok(variable(alloc, text)?.map(Directive::Env))
}

fn blacklist(alloc: Global, arguments: &[&[u8]]) -> Result<Option<Directive>, NoMemory>
    ensures { IfOk result
        (λ said. option_map directive_content said
        ≡ value_said values.Blacklist (map (λ text. text.now) arguments.now)) }
{
    Ok(one_or_more(alloc, arguments)?.map(Directive::Blacklist))
}

fn interfaces(
    alloc: Global,
    list: InterfaceList,
    arguments: &[&[u8]],
) -> Result<Option<Directive>, NoMemory>
    ensures { IfOk result
        (λ said. option_map directive_content said
        ≡ value_said (values.Interfaces list) (map (λ text. text.now) arguments.now)) }
{
    match one_or_more(alloc, arguments)? {
        Some(patterns) => Ok(Some(Directive::Interfaces(list, patterns))),
        None => Ok(None),
    }
}

/// What the arguments of a directive say.
pub(crate) fn value_said(
    alloc: Global,
    name: ValueName,
    arguments: &[&[u8]],
) -> Result<Option<Directive>, NoMemory>
    ensures { IfOk result
        (λ said. option_map directive_content said ≡ value_said name (map (λ text. text.now) arguments.now)) }
{
    match name {
        ValueName::Seconds(name) => Ok(seconds(name, arguments)),
        ValueName::Metric => Ok(metric(arguments)),
        ValueName::VendorClass => {
            Ok(vendor_class(alloc, arguments)?.map(Directive::VendorClass))
        }
        ValueName::ClientId => Ok(client_id(alloc, arguments)?.map(Directive::Identifier)),
        ValueName::Env => env(alloc, arguments),
        ValueName::Blacklist => blacklist(alloc, arguments),
        ValueName::Interfaces(list) => interfaces(alloc, list, arguments),
        ValueName::Script => script(alloc, arguments),
    }
}
