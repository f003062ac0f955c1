//! Why a text is no transcript.
ghost use Rattle.std.specs.Prelude.{◌≡◌};
ghost use Rattle.transcript_read.specs.declared.answers.TranscriptAnswer.TheVariants as answers;

use net_types::NoMemory;

/// Why a text is no transcript.
#[derive(Clone, Copy, PartialEq, Eq)]
pub enum TranscriptAnswer {
    /// The first bad line, counted from 1; where the text ends early, the line after its last.
    Bad { line: u64 },
    /// Memory ran out.
    NoMemory,
}

impl From<NoMemory> for TranscriptAnswer {
    ghost from_gives = { λ _ answer. answer ≡ answers.NoMemory };

    fn from(_error: NoMemory) -> TranscriptAnswer {
        TranscriptAnswer::NoMemory
    }
}
