//! What is in force for hooks.
ghost use Rattle.std.specs.Prelude.{◌≡◌, ◌++◌, map, option_map, IfOk, OnOk};
ghost use Rattle.std.specs.String.{string_bytes};
ghost use Rattle.world.specs.HookCalls.{variable_of};
ghost use Rattle.settings.specs.HookSettings.{script_in};
ghost use Rattle.conf_values.specs.Texts.{env_content};
ghost use Rattle.conf_scopes.specs.ScopeContents.{scope_content};
ghost use Rattle.conf_text.specs.Contents.{configuration};
ghost use Rattle.conf_text.specs.Settings.{hooks_in_force, script_in_force, script_of, variable_said};

use crate::conf::{Conf, NO_HOOKS};
use conf_scopes::Scope;
use conf_values::Env;
use net_types::NoMemory;
use settings::{HookConf, Script};
use std::alloc::{AllocError, Global};
use world::HookVar;

fn script_of(alloc: Global, path: &str) -> Result<Script, AllocError>
    ensures { IfOk result (λ script. script_in script ≡ script_of path.now) }
{
    if path == NO_HOOKS {
        Ok(Script::Nothing)
    } else if path.is_empty() {
        Ok(Script::Default)
    } else {
        Ok(Script::At(String::from_str(alloc, path)?))
    }
}

fn script_in_force(alloc: Global, path: &Option<String>) -> Result<Script, AllocError>
    ensures { IfOk result (λ script. script_in script ≡ script_in_force (option_map string_bytes path.now)) }
{
    match path {
        Some(path) => script_of(alloc, path),
        None => Ok(Script::Default),
    }
}

fn variable_said(alloc: Global, env: &Env) -> Result<HookVar, AllocError>
    ensures { IfOk result (λ variable. variable_of variable ≡ variable_said (env_content env.now)) }
{
    let name = String::from_str(alloc, &env.name)?;
    let value = String::from_str(alloc, &env.value)?;
    Ok(HookVar { name, value })
}

fn add_env(into: &mut Vec<HookVar>, env: &[Env]) -> Result<(), AllocError>
    ensures { OnOk result
        (map variable_of into.new.items
        ≡ map variable_of into.old.items ++ map (λ said. variable_said (env_content said)) env.now) }
{
    let alloc = *into.allocator();
    for said in env {
        into.push(variable_said(alloc, said)?)?;
    }
    Ok(())
}

fn env_in_force(alloc: Global, global: &[Env], block: &[Env]) -> Result<Vec<HookVar>, AllocError>
    ensures { IfOk result
        (λ env. map variable_of env.items
        ≡ map variable_said (map env_content global.now ++ map env_content block.now)) }
{
    let mut env = Vec::new(alloc);
    add_env(&mut env, global)?;
    add_env(&mut env, block)?;
    Ok(env)
}

/// What is run at the events of an interface, and with which variables.
pub fn hooks_in_force(alloc: Global, conf: &Conf, block: &Scope) -> Result<HookConf, NoMemory>
    ensures { IfOk result
        (λ hooks. hooks
        ≡ hooks_in_force (configuration conf.now).script (configuration conf.now).global
        (scope_content block.now)) }
{
    Ok(HookConf {
        script: script_in_force(alloc, &conf.script)?,
        env: env_in_force(alloc, &conf.global.env, &block.env)?,
    })
}
