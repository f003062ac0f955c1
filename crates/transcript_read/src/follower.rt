//! What goes through the lines of a transcript.
ghost use Rattle.std.specs.Prelude.{IfOk};
ghost use Rattle.conf_text.specs.Configurations.{Configuration};
ghost use Rattle.conf_text.specs.Contents.{configuration};
ghost use Rattle.script_model.specs.Lines.{Line};
ghost use Rattle.transcript_lines.specs.Bounds.{FitsTold};
ghost use Rattle.transcript_lines.specs.Contents.{line_of};
ghost use Rattle.transcript_read.specs.Following.{IsRead};

use conf_text::Conf;
use net_types::NoMemory;
use std::alloc::Global;
use transcript_lines::ToldLine;

/// What is told each line after the head of a transcript, one after another: those of interfaces, and those of lives,
/// from the number of a life to its end.
pub trait Follower: Sized {
    ghost State: { Type 0 };

    // What it holds is so in this state.
    ghost Tells: { Self → State → Type 0 };

    // The state before the lines after the head, by the configuration in the head.
    ghost first: { Configuration → State };

    // The state after a line more.
    ghost after: { State → Line → State };

    /// Begins with the configuration, before the first line after the head.
    fn begin(alloc: Global, conf: Conf) -> Result<Self, NoMemory>
        requires { IsRead (configuration conf) }
        ensures { IfOk result (λ begun. Tells begun (first (configuration conf))) };

    /// Takes one line more.
    fn follow(self, alloc: Global, line: ToldLine<'_>) -> Result<Self, NoMemory>
        requires { FitsTold (line_of line) }
        ensures { IfOk result
            (λ next. (state : State) → Tells self state → Tells next (after state (line_of line.entry))) };
}
