//! What an input says, read with its configuration.
ghost use Rattle.std.specs.Prelude.{◌≡◌, Ok, IfOk, IfErr};
ghost use Rattle.replay_text.specs.ScriptContent.{script_of, HoldsLines};
ghost use Rattle.conf_text.specs.Configurations.{IsConfOf};
ghost use Rattle.conf_text.specs.Contents.{configuration};
ghost use Rattle.text_works.specs.Refusals.{IsConfRefused, IsReadRefused, IsRefused};
ghost use Rattle.text_works.specs.SpelledScripts.{configuration_text};
ghost use Rattle.text_works.specs.Settling.{IsRead, IsSettled, IsSettledAs};

use crate::status::Status;
use conf_laws::configuration_is_one;
use conf_text::{Conf, ConfAnswer, managed, read_conf};
use replay_text::{Script, ScriptAnswer, read_script};
use settings::Managed;
use std::alloc::Global;

/// What a script of the bytes says, with its configuration and the interfaces that this has managed.
#[derive(Drop)]
pub struct Settled {
    pub script: Script,
    pub conf: Conf,
    pub managed: Vec<Managed>,
}

fn read_lines(alloc: Global, bytes: &[u8]) -> Result<Script, Status>
    ensures found { IfOk result (IsRead bytes.now) }
    ensures bad { IfErr result (IsReadRefused bytes.now) }
{
    match read_script(alloc, bytes) {
        Ok(script) => Ok(script),
        Err(ScriptAnswer::Bad(fault)) => Err(Status::Script(fault)),
        Err(ScriptAnswer::NoMemory) => Err(Status::NoMemory),
    }
}

/// Reads a configuration.
pub fn read_configuration(alloc: Global, text: &[u8]) -> Result<Conf, Status>
    ensures found { IfOk result (λ conf. IsConfOf text.now (Ok (configuration conf))) }
    ensures bad { IfErr result (IsConfRefused text.now) }
{
    match read_conf(alloc, text) {
        Ok(conf) => Ok(conf),
        Err(ConfAnswer::Bad(fault)) => Err(Status::Conf(fault)),
        Err(ConfAnswer::NoMemory) => Err(Status::NoMemory),
    }
}

/// Reads the configuration of a script, and finds what it has managed.
pub fn settle_script(alloc: Global, script: Script) -> Result<Settled, Status>
    requires lines { HoldsLines script.conf.items }
    ensures found { IfOk result (IsSettledAs (script_of script)) }
    ensures bad { IfErr result (IsConfRefused (configuration_text (script_of script))) }
{
    let conf = read_configuration(alloc, &script.conf)?;
    configuration_is_one();
    let managed = managed(alloc, &conf, &script.ifaces)?;
    Ok(Settled {
        script,
        conf,
        managed,
    })
}

/// Reads a script and its configuration.
#[tactic(auto, using(crate::proofs::Refusals::read_holds, crate::proofs::Refusals::settled_read, crate::proofs::Refusals::refused_read))]
pub fn settle(alloc: Global, bytes: &[u8]) -> Result<Settled, Status>
    ensures found { IfOk result (IsSettled bytes.now) }
    ensures bad { IfErr result (IsRefused bytes.now) }
{
    let script = read_lines(alloc, bytes)?;
    settle_script(alloc, script)
}
