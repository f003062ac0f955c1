//! The texts of scripts and transcripts: their lines, and which text is a script.
#![tactic(auto)]

mod crashing;
mod failing;
mod laws;

pub use crashing::CrashKind;
pub use failing::{FailDevice, FailLine};
pub use laws::{printed_rows_are_spelled, printed_turns_are_spelled};
