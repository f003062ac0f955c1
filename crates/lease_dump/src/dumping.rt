//! The variables of a lease file, and their text.
ghost use Rattle.std.specs.Prelude.{◌≡◌, ◌++◌, true, false, map, IfOk, IfErr, OnOk};
ghost use Rattle.world.specs.HookCalls.{variable_of};
ghost use Rattle.lease_dump.specs.declared.dumping.DumpAnswer.TheVariants as answers;
ghost use Rattle.lease_dump.specs.Dumps.{IsBadLease, IsBadLeaseAs, IsDumped, IsDumpedAs, is_of_dhcp6, variable_line, variables_text};

use hook_env::{lease_vars, lease6_vars};
use lease_text::read_lease4;
use lease6_text::read_lease6;
use net_types::{NoMemory, TextFault, append_bytes};
use std::alloc::Global;
use thiserror::Error;
use world::HookVar;

/// Why a lease file has no variables.
#[derive(Clone, Copy, Debug, PartialEq, Eq, Error)]
pub enum DumpAnswer {
    /// The first line with which no lease text goes on, from 1.
    #[error("line {line}")]
    BadLease { line: u64 },
    #[error("NoMemory")]
    NoMemory,
}

impl From<NoMemory> for DumpAnswer {
    ghost from_gives = { λ _ answer. answer ≡ answers.NoMemory };

    fn from(_error: NoMemory) -> DumpAnswer {
        DumpAnswer::NoMemory
    }
}

fn is_of_dhcp6(text: &[u8]) -> bool
    ensures { result ≡ is_of_dhcp6 text.now }
{
    text.starts_with(b"dhcpcd-lease6")
}

/// The variables of a lease of DHCPv4.
fn dump4(alloc: Global, text: &[u8]) -> Result<Vec<HookVar>, DumpAnswer>
    ensures ok { IfOk result (λ vars. IsDumpedAs false text.now (map variable_of vars.items)) }
    ensures bad { IfErr result (λ answer. IsBadLeaseAs false text.now answer) }
{
    match read_lease4(alloc, text) {
        Ok(lease) => Ok(lease_vars(alloc, &lease)?),
        Err(TextFault::Bad { line, .. }) => Err(DumpAnswer::BadLease { line: line as u64 }),
        Err(TextFault::NoMemory) => Err(DumpAnswer::NoMemory),
    }
}

/// The variables of a lease of DHCPv6.
fn dump6(alloc: Global, text: &[u8]) -> Result<Vec<HookVar>, DumpAnswer>
    ensures ok { IfOk result (λ vars. IsDumpedAs true text.now (map variable_of vars.items)) }
    ensures bad { IfErr result (λ answer. IsBadLeaseAs true text.now answer) }
{
    match read_lease6(alloc, text) {
        Ok(lease) => Ok(lease6_vars(alloc, &lease)?),
        Err(TextFault::Bad { line, .. }) => Err(DumpAnswer::BadLease { line: line as u64 }),
        Err(TextFault::NoMemory) => Err(DumpAnswer::NoMemory),
    }
}

/// The variables that hooks are told of the lease that a file holds, with `new_` before their names. The first word
/// tells of which family it is: `dhcpcd-lease6` of DHCPv6, another one of DHCPv4. `BadLease` names the first bad line.
pub fn dump(alloc: Global, text: &[u8]) -> Result<Vec<HookVar>, DumpAnswer>
    ensures ok { IfOk result (λ vars. IsDumped text.now (map variable_of vars.items)) }
    ensures bad { IfErr result (λ answer. IsBadLease text.now answer) }
{
    if is_of_dhcp6(text) {
        dump6(alloc, text)
    } else {
        dump4(alloc, text)
    }
}

/// Appends a line `NAME=VALUE`.
#[tactic(auto, using(std::proofs::Common::append_assoc))]
fn append_variable(variable: &HookVar, into: &mut Vec<u8>) -> Result<(), NoMemory>
    ensures { OnOk result (into.new.items ≡ into.old.items ++ variable_line (variable_of variable.now)) }
{
    append_bytes(variable.name.as_bytes(), into)?;
    append_bytes(b"=", into)?;
    append_bytes(variable.value.as_bytes(), into)?;
    append_bytes(b"\n", into)
}

/// Appends a line for each variable.
pub fn append_variables(vars: &[HookVar], into: &mut Vec<u8>) -> Result<(), NoMemory>
    ensures { OnOk result (into.new.items ≡ into.old.items ++ variables_text (map variable_of vars.now)) }
{
    for variable in vars {
        append_variable(variable, into)?;
    }
    Ok(())
}
