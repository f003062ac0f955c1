//! The variables of what is held of IPv6.
ghost use Rattle.std.specs.Prelude.{◌≡◌, ◌++◌, flat_map, map, IfOk, OnOk};
ghost use Rattle.std.specs.Option.{option_and_then, option_map};
ghost use Rattle.std.specs.String.{string_bytes};
ghost use Rattle.v6_options.specs.declared.code.TheConstants.{DNS_SERVERS, DOMAIN_LIST};
ghost use Rattle.lease_text.specs.Leases.{values_content};
ghost use Rattle.lease6_text.specs.Leases.{ia_content, ias_content, lease6_content};
ghost use Rattle.world.specs.HookCalls.{variable_of};
ghost use Rattle.hook_env.specs.Lists.{some_listed};
ghost use Rattle.hook_env.specs.ValueTexts.{names6_text, servers6_text, value_in};
ghost use Rattle.hook_env.specs.Lease6Variables.{address_item, delegated_variables, ia_addresses, ia_prefixes, lease6_told, lease6_value, lease6_variables, prefix_item};

use crate::forms::{names6_text, servers6_text, value_in};
use crate::lists::listed;
use crate::situation::Stage;
use crate::telling::{push_if, push_told};
use crate::variables::{LEASE6_VARIABLES, Lease6Variable, lease6_word};
use lease_text::Value;
use lease6_text::{IaLease, Item6, Lease6};
use net_types::{Net6, NoMemory};
use std::alloc::Global;
use v6_options::{IaKind, code};
use world::HookVar;

fn add_addresses(texts: &mut Vec<String>, items: &[Item6]) -> Result<(), NoMemory>
    ensures { OnOk result
        (map (λ text. string_bytes text) texts.new.items
        ≡ map (λ text. string_bytes text) texts.old.items ++ map address_item items.now) }
{
    let alloc = *texts.allocator();
    for item in items {
        texts.push(format!(in alloc; "{}", item.net.ip)?)?;
    }
    Ok(())
}

fn add_prefixes(texts: &mut Vec<String>, items: &[Item6]) -> Result<(), NoMemory>
    ensures { OnOk result
        (map (λ text. string_bytes text) texts.new.items
        ≡ map (λ text. string_bytes text) texts.old.items ++ map prefix_item items.now) }
{
    let alloc = *texts.allocator();
    for item in items {
        texts.push(format!(in alloc; "{}", item.net)?)?;
    }
    Ok(())
}

fn add_ia_addresses(texts: &mut Vec<String>, ia: &IaLease) -> Result<(), NoMemory>
    ensures { OnOk result
        (map (λ text. string_bytes text) texts.new.items
        ≡ map (λ text. string_bytes text) texts.old.items ++ ia_addresses (ia_content ia.now)) }
{
    match ia.kind {
        IaKind::Na => add_addresses(texts, &ia.items),
        IaKind::Pd => Ok(()),
    }
}

fn add_ia_prefixes(texts: &mut Vec<String>, ia: &IaLease) -> Result<(), NoMemory>
    ensures { OnOk result
        (map (λ text. string_bytes text) texts.new.items
        ≡ map (λ text. string_bytes text) texts.old.items ++ ia_prefixes (ia_content ia.now)) }
{
    match ia.kind {
        IaKind::Na => Ok(()),
        IaKind::Pd => add_prefixes(texts, &ia.items),
    }
}

fn addresses_of(alloc: Global, ias: &[IaLease]) -> Result<Vec<String>, NoMemory>
    ensures { IfOk result
        (λ texts. map (λ text. string_bytes text) texts.items ≡ flat_map ia_addresses (ias_content ias.now)) }
{
    let mut texts = Vec::new(alloc);
    for ia in ias {
        add_ia_addresses(&mut texts, ia)?;
    }
    Ok(texts)
}

fn prefixes_of(alloc: Global, ias: &[IaLease]) -> Result<Vec<String>, NoMemory>
    ensures { IfOk result
        (λ texts. map (λ text. string_bytes text) texts.items ≡ flat_map ia_prefixes (ias_content ias.now)) }
{
    let mut texts = Vec::new(alloc);
    for ia in ias {
        add_ia_prefixes(&mut texts, ia)?;
    }
    Ok(texts)
}

/// The list of the texts, where there is one.
fn some_listed(alloc: Global, texts: &[String]) -> Result<Option<String>, NoMemory>
    ensures { IfOk result
        (λ list. option_map string_bytes list ≡ some_listed (map (λ text. string_bytes text) texts.now)) }
{
    match texts {
        [] => Ok(None),
        _ => Ok(Some(listed(alloc, texts)?)),
    }
}

fn servers_of(alloc: Global, values: &[Value]) -> Result<Option<String>, NoMemory>
    ensures { IfOk result
        (λ text. option_map string_bytes text
        ≡ option_and_then servers6_text (value_in DNS_SERVERS (values_content values.now))) }
{
    match value_in(values, code::DNS_SERVERS) {
        Some(value) => servers6_text(alloc, value),
        None => Ok(None),
    }
}

fn names_of(alloc: Global, values: &[Value]) -> Result<Option<String>, NoMemory>
    ensures { IfOk result
        (λ text. option_map string_bytes text
        ≡ option_and_then names6_text (value_in DOMAIN_LIST (values_content values.now))) }
{
    match value_in(values, code::DOMAIN_LIST) {
        Some(value) => names6_text(alloc, value),
        None => Ok(None),
    }
}

fn lease6_value(
    alloc: Global,
    lease: &Lease6,
    variable: Lease6Variable,
) -> Result<Option<String>, NoMemory>
    ensures { IfOk result (λ text. option_map string_bytes text ≡ lease6_value (lease6_content lease.now) variable) }
{
    match variable {
        Lease6Variable::Addresses => some_listed(alloc, &addresses_of(alloc, &lease.ias)?),
        Lease6Variable::Prefixes => some_listed(alloc, &prefixes_of(alloc, &lease.ias)?),
        Lease6Variable::NameServers => servers_of(alloc, &lease.values),
        Lease6Variable::DomainSearch => names_of(alloc, &lease.values),
    }
}

fn push_lease6(
    into: &mut Vec<HookVar>,
    stage: Stage,
    lease: &Lease6,
    variable: Lease6Variable,
) -> Result<(), NoMemory>
    ensures { OnOk result
        (map variable_of into.new.items
        ≡ map variable_of into.old.items ++ lease6_told stage (lease6_content lease.now) variable) }
{
    let value = lease6_value(*into.allocator(), lease, variable)?;
    push_if(into, stage, lease6_word(variable), value)
}

/// Appends the variables of a DHCPv6 lease.
pub(crate) fn add_lease6(
    into: &mut Vec<HookVar>,
    stage: Stage,
    lease: &Lease6,
) -> Result<(), NoMemory>
    ensures { OnOk result
        (map variable_of into.new.items
        ≡ map variable_of into.old.items ++ lease6_variables stage (lease6_content lease.now)) }
{
    for variable in LEASE6_VARIABLES {
        push_lease6(into, stage, lease, variable)?;
    }
    Ok(())
}

/// Appends the variable of an address out of a delegated prefix.
pub(crate) fn add_delegated(
    into: &mut Vec<HookVar>,
    stage: Stage,
    net: Net6,
) -> Result<(), NoMemory>
    ensures { OnOk result
        (map variable_of into.new.items ≡ map variable_of into.old.items ++ delegated_variables stage net) }
{
    let alloc = *into.allocator();
    push_told(
        into,
        stage,
        "delegated_address",
        format!(in alloc; "{net}")?,
    )
}
