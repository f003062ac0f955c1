//! The job of a situation.
ghost use Rattle.std.specs.Prelude.{◌≡◌, ◌++◌, ◌∷◌, [], map, IfOk, OnOk};
ghost use Rattle.std.specs.String.{string_bytes};
ghost use Rattle.world.specs.HookCalls.{job_of, variable_of};
ghost use Rattle.hook_env.specs.Jobs.{carrier_word, held_variables, job_of_situation, job_said, job_value, job_variables, made_variables, variables_if};
ghost use Rattle.hook_env.specs.Lease6Variables.{lease6_variables};
ghost use Rattle.hook_env.specs.LeaseVariables.{lease_variables};
ghost use Rattle.hook_env.specs.Situations.{held_content, situation_content};
ghost use Rattle.hook_env.specs.declared.situation.Stage.TheVariants as stages;
ghost use Rattle.lease_text.specs.Leases.{lease_content};
ghost use Rattle.lease6_text.specs.Leases.{lease6_content};

use crate::situation::{Held, Situation, Stage, tells_before, tells_now};
use crate::telling::push_variable;
use crate::telling4::{add_lease, add_net};
use crate::telling6::{add_delegated, add_lease6};
use crate::variables::{JOB_VARIABLES, JobVariable, job_word};
use lease_text::Lease4;
use lease6_text::Lease6;
use net_types::NoMemory;
use std::alloc::Global;
use world::{HookJob, HookVar, add_variables, reason_text};

fn carrier_word(up: bool) -> &'static str
    ensures { result.now ≡ carrier_word up }
{
    if up { "up" } else { "down" }
}

fn job_value(
    alloc: Global,
    situation: &Situation,
    variable: JobVariable,
) -> Result<String, NoMemory>
    ensures { IfOk result (λ text. string_bytes text ≡ job_value (situation_content situation.now) variable) }
{
    match variable {
        JobVariable::Interface => Ok(format!(in alloc; "{}", situation.interface.name)?),
        JobVariable::Reason => Ok(String::from_str(alloc, reason_text(situation.reason))?),
        JobVariable::Carrier => Ok(String::from_str(alloc, carrier_word(situation.up))?),
        JobVariable::Metric => Ok(format!(in alloc; "{}", situation.metric)?),
    }
}

fn push_job_variable(
    into: &mut Vec<HookVar>,
    situation: &Situation,
    variable: JobVariable,
) -> Result<(), NoMemory>
    ensures { OnOk result
        (map variable_of into.new.items
        ≡ map variable_of into.old.items ++ job_said (situation_content situation.now) variable ∷ []) }
{
    let value = job_value(*into.allocator(), situation, variable)?;
    push_variable(into, "", job_word(variable), value)
}

/// Appends what each job says.
fn add_job_variables(into: &mut Vec<HookVar>, situation: &Situation) -> Result<(), NoMemory>
    ensures { OnOk result
        (map variable_of into.new.items
        ≡ map variable_of into.old.items ++ job_variables (situation_content situation.now)) }
{
    for variable in JOB_VARIABLES {
        push_job_variable(into, situation, variable)?;
    }
    Ok(())
}

/// Appends what is held.
fn add_held(into: &mut Vec<HookVar>, stage: Stage, held: &Held) -> Result<(), NoMemory>
    ensures { OnOk result
        (map variable_of into.new.items
        ≡ map variable_of into.old.items ++ held_variables stage (held_content held.now)) }
{
    match *held {
        Held::Nothing => Ok(()),
        Held::Leased4(lease) => add_lease(into, stage, lease),
        Held::Address4(net) => add_net(into, stage, net),
        Held::Leased6(lease) => add_lease6(into, stage, lease),
        Held::Delegated(net) => add_delegated(into, stage, net),
    }
}

fn add_if(into: &mut Vec<HookVar>, tells: bool, stage: Stage, held: &Held) -> Result<(), NoMemory>
    ensures { OnOk result
        (map variable_of into.new.items
        ≡ map variable_of into.old.items ++ variables_if tells stage (held_content held.now)) }
{
    if tells {
        add_held(into, stage, held)
    } else {
        Ok(())
    }
}

/// Appends what is made of the situation.
#[tactic(auto, using(std::proofs::Common::append_assoc))]
fn add_made(into: &mut Vec<HookVar>, situation: &Situation) -> Result<(), NoMemory>
    ensures { OnOk result
        (map variable_of into.new.items
        ≡ map variable_of into.old.items ++ made_variables (situation_content situation.now)) }
{
    let before = tells_before(situation.reason);
    let now = tells_now(situation.reason);
    add_job_variables(into, situation)?;
    add_if(into, before, Stage::Before, &situation.held_before)?;
    add_if(into, now, Stage::Now, &situation.held_now)
}

/// The job of a situation, without a number. Its variables are `interface`, `reason`, `ifcarrier` and `ifmetric`; then,
/// where the reason tells of them, those with `old_` of the lease before, and those with `new_` of the lease since;
/// then those that are configured (dhcpcd-run-hooks(8)).
pub fn job(alloc: Global, situation: &Situation) -> Result<HookJob, NoMemory>
    ensures { IfOk result (λ made. job_of made ≡ job_of_situation (situation_content situation.now)) }
{
    let script = String::from_str(alloc, situation.script)?;
    let mut vars = Vec::new(alloc);
    add_made(&mut vars, situation)?;
    add_variables(&mut vars, situation.env)?;
    Ok(HookJob {
        number: 0,
        reason: situation.reason,
        iface: situation.interface.index,
        script,
        vars,
    })
}

/// The variables of a held DHCPv4 lease, with `new_` before their names.
pub fn lease_vars(alloc: Global, lease: &Lease4) -> Result<Vec<HookVar>, NoMemory>
    ensures { IfOk result (λ vars. map variable_of vars.items ≡ lease_variables stages.Now (lease_content lease.now)) }
{
    let mut vars = Vec::new(alloc);
    add_lease(&mut vars, Stage::Now, lease)?;
    Ok(vars)
}

/// The variables of a held DHCPv6 lease, with `new_` before their names.
pub fn lease6_vars(alloc: Global, lease: &Lease6) -> Result<Vec<HookVar>, NoMemory>
    ensures { IfOk result
        (λ vars. map variable_of vars.items ≡ lease6_variables stages.Now (lease6_content lease.now)) }
{
    let mut vars = Vec::new(alloc);
    add_lease6(&mut vars, Stage::Now, lease)?;
    Ok(vars)
}
