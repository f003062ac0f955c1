//! A variable more.
ghost use Rattle.std.specs.Prelude.{◌≡◌, ◌++◌, ◌∷◌, [], map, OnOk};
ghost use Rattle.std.specs.Option.{option_map};
ghost use Rattle.std.specs.String.{string_bytes};
ghost use Rattle.world.specs.HookCalls.{variable_of};
ghost use Rattle.hook_env.specs.LeaseVariables.{told, told_if, variable};

use crate::situation::{Stage, prefix};
use net_types::NoMemory;
use world::HookVar;

/// Appends a variable; its name is the word behind the prefix.
pub(crate) fn push_variable(
    into: &mut Vec<HookVar>,
    prefix: &str,
    word: &str,
    value: String,
) -> Result<(), NoMemory>
    ensures { OnOk result
        (map variable_of into.new.items
        ≡ map variable_of into.old.items ++ variable (prefix.now ++ word.now) (string_bytes value) ∷ []) }
{
    let mut name = String::from_str(*into.allocator(), prefix)?;
    name.push_str(word)?;
    into.push(HookVar { name, value })?;
    Ok(())
}

/// Appends a variable of what is held.
pub(crate) fn push_told(
    into: &mut Vec<HookVar>,
    stage: Stage,
    word: &str,
    value: String,
) -> Result<(), NoMemory>
    ensures { OnOk result
        (map variable_of into.new.items
        ≡ map variable_of into.old.items ++ told stage word.now (string_bytes value) ∷ []) }
{
    push_variable(into, prefix(stage), word, value)
}

/// Appends a variable, where it has a value.
pub(crate) fn push_if(
    into: &mut Vec<HookVar>,
    stage: Stage,
    word: &str,
    value: Option<String>,
) -> Result<(), NoMemory>
    ensures { OnOk result
        (map variable_of into.new.items
        ≡ map variable_of into.old.items ++ told_if stage word.now (option_map string_bytes value)) }
{
    match value {
        Some(value) => push_told(into, stage, word, value),
        None => Ok(()),
    }
}
