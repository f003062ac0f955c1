//! What is configured for hooks.
ghost use Rattle.std.specs.Prelude.{◌≡◌, IfOk, map};
ghost use Rattle.world.specs.HookCalls.{variable_of};
ghost use Rattle.settings.specs.HookSettings.{script_in};

use std::alloc::{AllocError, Global};
use std::marker::Model;
use world::{HookVar, add_variables};

/// `script`: what is run.
#[derive(Drop)]
pub enum Script {
    /// `/dev/null`: nothing.
    Nothing,
    /// The script that the device runs by itself.
    Default,
    /// The one at this path.
    At(String),
}

impl Script {
    /// A copy of it.
    fn to_owned(&self, alloc: Global) -> Result<Script, AllocError>
        ensures { IfOk result (λ copy. script_in copy ≡ script_in self.now) }
    {
        match self {
            Script::Nothing => Ok(Script::Nothing),
            Script::Default => Ok(Script::Default),
            Script::At(path) => Ok(Script::At(String::from_str(alloc, path)?)),
        }
    }
}

/// What the hooks of an interface run, and which variables they are given beside those of their events.
#[derive(Drop)]
pub struct HookConf {
    pub script: Script,
    /// `env`, in the order of the configuration.
    pub env: Vec<HookVar>,
}

impl Model for HookConf {
    ghost use Rattle.settings.specs.HookSettings.{HookSettings, hook_settings};

    ghost Value = { HookSettings };

    ghost view = { λ conf. hook_settings conf.script conf.env.items };
}

/// A copy of these variables.
fn env_copied(alloc: Global, env: &[HookVar]) -> Result<Vec<HookVar>, AllocError>
    ensures { IfOk result (λ copy. map variable_of copy.items ≡ map variable_of env.now) }
{
    let mut copy = Vec::new(alloc);
    add_variables(&mut copy, env)?;
    Ok(copy)
}

impl HookConf {
    /// A copy of it.
    pub fn to_owned(&self, alloc: Global) -> Result<HookConf, AllocError>
        ensures { IfOk result (λ copy. copy ≡ self.now) }
    {
        Ok(HookConf {
            script: self.script.to_owned(alloc)?,
            env: env_copied(alloc, &self.env)?,
        })
    }
}
