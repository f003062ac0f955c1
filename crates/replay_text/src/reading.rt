//! Scripts, read line by line.
ghost use Rattle.std.specs.Prelude.{◌≡◌, ℕ, List, Option, IfOk, IfErr};
ghost use Rattle.net_types.specs.FirstBadLine.{IsSpelled};
ghost use Rattle.replay_text.specs.FirstFaults.{Why, NamesFault};
ghost use Rattle.replay_text.specs.LinesInOrder.{SpellsScript};
ghost use Rattle.replay_text.specs.ReadLines.{After, SpellsRead};
ghost use Rattle.script_lines.specs.ScriptContent.{script_of, HoldsLines};
ghost use Rattle.replay_text.specs.LinesRead.{LinesRead};
ghost use Rattle.replay_text.specs.ScriptReading.{ScriptRead, step, given, cause_of};
ghost use Rattle.replay_text.specs.SoFar.{state_read, script_said};

use crate::faults::{ScriptAnswer, ScriptCause, ScriptFault};
use crate::so_far::LinesSoFar;
use net_types::{LineFault, LineState, TextFault, read_lines};
use script_lines::{Script, is_text};
use std::alloc::Global;

/// What was read of a script.
#[derive(Drop)]
pub enum ScriptState {
    /// No line.
    Nothing,
    /// The first line, and those after it.
    Lines(LinesSoFar),
}

/// The first line of each script.
const HEAD: &[u8] = b"dhcpcd-script 1";

impl LineState for ScriptState {
    type Value = Script;

    type Cause = ScriptCause;

    ghost State = { Option LinesRead };

    ghost Said = { ScriptRead };

    ghost state = { state_read };

    ghost said = { script_said };

    ghost step = { step };

    ghost given = { given };

    ghost cause = { cause_of };

    ghost Spells = { SpellsRead };

    ghost After = { After };

    ghost Why = { Why };

    fn take(self, alloc: Global, line: &[u8]) -> Result<ScriptState, LineFault<ScriptCause>> {
        match self {
            ScriptState::Nothing => {
                if line == HEAD {
                    Ok(ScriptState::Lines(LinesSoFar::new(alloc)))
                } else if is_text(line) {
                    Err(LineFault::Bad(ScriptCause::Word))
                } else {
                    Err(LineFault::Bad(ScriptCause::NotText))
                }
            }
            ScriptState::Lines(lines) => {
                let next = lines.take(alloc, line)?;
                Ok(ScriptState::Lines(next))
            }
        }
    }

    fn unended(&self, _rest: &[u8]) -> ScriptCause {
        ScriptCause::NotText
    }

    fn end(self, _alloc: Global) -> Result<Script, LineFault<ScriptCause>> {
        match self {
            ScriptState::Nothing => Err(LineFault::Bad(ScriptCause::Word)),
            ScriptState::Lines(lines) => lines.end(),
        }
    }
}

/// The script that the text is one of, or the first bad line of a text that is none, with its cause. One pass, linear
/// in the text, but that each row and file is looked up among those before it.
pub fn read_script(alloc: Global, text: &[u8]) -> Result<Script, ScriptAnswer>
    ensures found { IfOk result (λ script. IsSpelled SpellsScript text.now (script_of script)) }
    // Each line of the configuration is there with its line feed.
    ensures conf { IfOk result (λ script. HoldsLines script.conf.items) }
    // The first line with which no script goes on, and why; want of memory alone is free.
    ensures fault { IfErr result (λ answer. NamesFault text.now answer) }
{
    match read_lines(alloc, ScriptState::Nothing, text) {
        Ok(script) => Ok(script),
        Err(TextFault::Bad { line, cause }) => Err(ScriptAnswer::Bad(ScriptFault {
            line: line as u64,
            cause,
        })),
        Err(TextFault::NoMemory) => Err(ScriptAnswer::NoMemory),
    }
}
