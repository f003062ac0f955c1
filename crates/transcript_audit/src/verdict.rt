//! What is said of a transcript.
use world::HostRow;

/// Whether each address that a transcript shows on a managed interface has its basis.
#[derive(Clone, Copy)]
pub enum Verdict {
    /// Each has. There are so many lives, and so many turns in all of them.
    Yes { lives: u64, turns: u64 },
    /// This is the first that has none, by life, turn and row order, and it is shown after this turn of this life:
    /// lives are counted from 1 and turns too, and an opening is turn 0.
    No { life: u64, turn: u64, row: HostRow },
}
