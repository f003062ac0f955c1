//! The script.

ghost use Rattle.std.specs.Prelude.{◌≡◌, ◌≤◌, IfOk};
ghost use Rattle.replay_text.specs.ScriptContent.{script_of, HoldsLines};
ghost use Rattle.script_model.specs.Scripts.{FitsScript};
ghost use Rattle.made_script.specs.MadeLines.{made_lines};

use crate::frames::SALT;
use crate::hosts::made_ifaces;
use crate::turns::{MOST_ROUNDS, made_turns};
use net_types::NoMemory;
use replay_text::{LifeLines, Script};
use std::alloc::Global;
use world::Begin;

/// The configuration: leases are got at once and without probes, and no hooks run.
pub(crate) const CONF: &[u8] = b"nodelay\nnoarp\nscript /dev/null\n";
/// The life begins at the moment 0, and all interfaces have carrier.
pub(crate) const BEGIN: Begin = Begin {
    at: 0,
    salt: SALT,
    up: u64::MAX,
};

/// The script in which each interface gets a lease, and renews it so many times. Only want of memory is an error.
pub fn made_script(alloc: Global, rounds: u64) -> Result<Script, NoMemory>
    requires first { 1 ≤ rounds }
    requires last { rounds ≤ MOST_ROUNDS }
    ensures lines { IfOk result (λ script. script_of script ≡ made_lines rounds) }
    // Each line of the configuration is there with its line feed.
    ensures conf { IfOk result (λ script. HoldsLines script.conf.items) }
    // These are the lines of a script.
    ensures fits { IfOk result (λ _. FitsScript (made_lines rounds)) }
{
    let life = LifeLines {
        begin: BEGIN,
        turns: made_turns(alloc, rounds)?,
        crash: None,
    };
    Ok(Script {
        conf: Vec::from_slice(alloc, CONF)?,
        ifaces: made_ifaces(alloc)?,
        rows: Vec::new(alloc),
        files: Vec::new(alloc),
        fails: Vec::new(alloc),
        polls: Vec::new(alloc),
        lives: vec![in alloc; life]?,
    })
}
