//! The variables of what is held of IPv4.
ghost use Rattle.std.specs.Prelude.{◌≡◌, ◌++◌, ◌∷◌, [], map, IfOk, OnOk};
ghost use Rattle.std.specs.Option.{option_map};
ghost use Rattle.std.specs.String.{string_bytes};
ghost use Rattle.lease_text.specs.Leases.{lease_content, values_content};
ghost use Rattle.world.specs.HookCalls.{variable_of};
ghost use Rattle.hook_env.specs.LeaseVariables.{lease_variables, net_told, net_value, net_variables, option_told, option_value, option_variables, term_variables};

use crate::forms::{value_in, value_text};
use crate::situation::Stage;
use crate::telling::{push_if, push_told};
use crate::variables::{NET_VARIABLES, NetVariable, net_word};
use lease_text::{Lease4, Value};
use net_types::{Net4, NoMemory};
use std::alloc::Global;
use v4_options::{OPTIONS, OptionRow, code, option_name};
use world::HookVar;

fn net_value(alloc: Global, net: Net4, variable: NetVariable) -> Result<String, NoMemory>
    ensures { IfOk result (λ text. string_bytes text ≡ net_value net variable) }
{
    match variable {
        NetVariable::Address => Ok(format!(in alloc; "{}", net.ip)?),
        NetVariable::Length => Ok(format!(in alloc; "{}", net.len)?),
        NetVariable::Mask => Ok(format!(in alloc; "{}", net.mask())?),
    }
}

fn push_net(
    into: &mut Vec<HookVar>,
    stage: Stage,
    net: Net4,
    variable: NetVariable,
) -> Result<(), NoMemory>
    ensures { OnOk result
        (map variable_of into.new.items ≡ map variable_of into.old.items ++ net_told stage net variable ∷ []) }
{
    let value = net_value(*into.allocator(), net, variable)?;
    push_told(into, stage, net_word(variable), value)
}

/// Appends the variables of an IPv4 address with its network.
pub(crate) fn add_net(into: &mut Vec<HookVar>, stage: Stage, net: Net4) -> Result<(), NoMemory>
    ensures { OnOk result (map variable_of into.new.items ≡ map variable_of into.old.items ++ net_variables stage net) }
{
    for variable in NET_VARIABLES {
        push_net(into, stage, net, variable)?;
    }
    Ok(())
}

fn option_value(alloc: Global, values: &[Value], row: OptionRow) -> Result<Option<String>, NoMemory>
    ensures { IfOk result (λ text. option_map string_bytes text ≡ option_value (values_content values.now) row) }
{
    match value_in(values, u16::from(row.code)) {
        Some(value) => value_text(alloc, row.form, value),
        None => Ok(None),
    }
}

fn push_option(
    into: &mut Vec<HookVar>,
    stage: Stage,
    values: &[Value],
    row: OptionRow,
) -> Result<(), NoMemory>
    ensures { OnOk result
        (map variable_of into.new.items
        ≡ map variable_of into.old.items ++ option_told stage (values_content values.now) row) }
{
    if !row.kept {
        return Ok(());
    }
    let value = option_value(*into.allocator(), values, row)?;
    push_if(into, stage, option_name(row.code), value)
}

fn add_options(into: &mut Vec<HookVar>, stage: Stage, values: &[Value]) -> Result<(), NoMemory>
    ensures { OnOk result
        (map variable_of into.new.items
        ≡ map variable_of into.old.items ++ option_variables stage (values_content values.now)) }
{
    for row in OPTIONS {
        push_option(into, stage, values, row)?;
    }
    Ok(())
}

/// Appends how long a lease lasts and who granted it.
#[tactic(auto, using(std::proofs::Common::append_assoc))]
fn add_terms(into: &mut Vec<HookVar>, stage: Stage, lease: &Lease4) -> Result<(), NoMemory>
    ensures { OnOk result
        (map variable_of into.new.items
        ≡ map variable_of into.old.items ++ term_variables stage (lease_content lease.now)) }
{
    let alloc = *into.allocator();
    let time = format!(in alloc; "{}", lease.lease)?;
    let server = format!(in alloc; "{}", lease.server)?;
    push_told(into, stage, option_name(code::LEASE_TIME), time)?;
    push_told(into, stage, option_name(code::SERVER_IDENTIFIER), server)
}

/// Appends the variables of a DHCPv4 lease.
#[tactic(auto, using(std::proofs::Common::append_assoc))]
pub(crate) fn add_lease(
    into: &mut Vec<HookVar>,
    stage: Stage,
    lease: &Lease4,
) -> Result<(), NoMemory>
    ensures { OnOk result
        (map variable_of into.new.items
        ≡ map variable_of into.old.items ++ lease_variables stage (lease_content lease.now)) }
{
    add_net(into, stage, lease.net)?;
    add_options(into, stage, &lease.values)?;
    add_terms(into, stage, lease)
}
