//! The texts of values that came with leases.
ghost use Rattle.std.specs.Prelude.{◌≡◌, ◌==◌, find, IfOk};
ghost use Rattle.std.specs.Option.{option_copied, option_map};
ghost use Rattle.std.specs.String.{string_bytes};
ghost use Rattle.lease_text.specs.Leases.{values_content};
ghost use Rattle.hook_env.specs.ValueTexts.{address_text, addresses_text, names_text, number16_text, number32_text, routes_text, servers6_text, names6_text, value_in, value_text};

use crate::lists::{ip4_texts, ip6_texts, listed, route_texts};
use lease_text::Value;
use net_types::NoMemory;
use std::alloc::Global;
use v4_options::{ValueForm, addr_of, addrs_of, routes_of, search_of, text_of, u16_of, u32_of};
use v6_options::{dns6_of, search6_of};

/// The value of a code as it is kept.
fn kept_value(values: &[Value], code: u16) -> Option<&Value>
    ensures { option_copied result ≡ find (λ value. value.code == code) values.now }
{
    values.iter().find(|value| value.code == code)
}

/// The bytes of the value of a code.
#[tactic(auto, using(crate::proofs::FoundValues::bytes_found))]
pub(crate) fn value_in(values: &[Value], code: u16) -> Option<&[u8]>
    ensures { option_map (λ bytes. bytes.now) result ≡ value_in code (values_content values.now) }
{
    let value = kept_value(values, code)?;
    Some(&value.bytes)
}

fn address_text(alloc: Global, value: &[u8]) -> Result<Option<String>, NoMemory>
    ensures { IfOk result (λ text. option_map string_bytes text ≡ address_text value.now) }
{
    let Some(address) = addr_of(value) else {
        return Ok(None);
    };
    Ok(Some(format!(in alloc; "{address}")?))
}

fn addresses_text(alloc: Global, value: &[u8]) -> Result<Option<String>, NoMemory>
    ensures { IfOk result (λ text. option_map string_bytes text ≡ addresses_text value.now) }
{
    let Some(addresses) = addrs_of(alloc, value)? else {
        return Ok(None);
    };
    let texts = ip4_texts(alloc, &addresses)?;
    Ok(Some(listed(alloc, &texts)?))
}

fn number16_text(alloc: Global, value: &[u8]) -> Result<Option<String>, NoMemory>
    ensures { IfOk result (λ text. option_map string_bytes text ≡ number16_text value.now) }
{
    let Some(number) = u16_of(value) else {
        return Ok(None);
    };
    Ok(Some(format!(in alloc; "{number}")?))
}

fn number32_text(alloc: Global, value: &[u8]) -> Result<Option<String>, NoMemory>
    ensures { IfOk result (λ text. option_map string_bytes text ≡ number32_text value.now) }
{
    let Some(number) = u32_of(value) else {
        return Ok(None);
    };
    Ok(Some(format!(in alloc; "{number}")?))
}

fn names_text(alloc: Global, value: &[u8]) -> Result<Option<String>, NoMemory>
    ensures { IfOk result (λ text. option_map string_bytes text ≡ names_text value.now) }
{
    let Some(names) = search_of(alloc, value)? else {
        return Ok(None);
    };
    Ok(Some(listed(alloc, &names)?))
}

fn routes_text(alloc: Global, value: &[u8]) -> Result<Option<String>, NoMemory>
    ensures { IfOk result (λ text. option_map string_bytes text ≡ routes_text value.now) }
{
    let Some(routes) = routes_of(alloc, value)? else {
        return Ok(None);
    };
    let texts = route_texts(alloc, &routes)?;
    Ok(Some(listed(alloc, &texts)?))
}

/// The text of a value, read in this form; None where it doesn't have the form.
pub(crate) fn value_text(
    alloc: Global,
    form: ValueForm,
    value: &[u8],
) -> Result<Option<String>, NoMemory>
    ensures { IfOk result (λ text. option_map string_bytes text ≡ value_text form value.now) }
{
    match form {
        ValueForm::Address => address_text(alloc, value),
        ValueForm::Addresses => addresses_text(alloc, value),
        ValueForm::Number16 => number16_text(alloc, value),
        ValueForm::Number32 => number32_text(alloc, value),
        ValueForm::DomainName => text_of(alloc, value),
        ValueForm::DomainNames => names_text(alloc, value),
        ValueForm::Routes => routes_text(alloc, value),
        ValueForm::Opaque => Ok(None),
    }
}

/// The text of the servers that are a value of DHCPv6.
pub(crate) fn servers6_text(alloc: Global, value: &[u8]) -> Result<Option<String>, NoMemory>
    ensures { IfOk result (λ text. option_map string_bytes text ≡ servers6_text value.now) }
{
    let Some(servers) = dns6_of(alloc, value)? else {
        return Ok(None);
    };
    let texts = ip6_texts(alloc, &servers)?;
    Ok(Some(listed(alloc, &texts)?))
}

/// The text of the names that are a value of DHCPv6.
pub(crate) fn names6_text(alloc: Global, value: &[u8]) -> Result<Option<String>, NoMemory>
    ensures { IfOk result (λ text. option_map string_bytes text ≡ names6_text value.now) }
{
    let Some(names) = search6_of(alloc, value)? else {
        return Ok(None);
    };
    Ok(Some(listed(alloc, &names)?))
}
