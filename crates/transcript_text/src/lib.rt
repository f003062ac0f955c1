//! The lines of a transcript, and their texts: what the daemon was asked and answered, one line each.
#![tactic(auto)]

mod appending;
mod carriers;
mod fields;
mod laws;
mod lines;
mod printing;

pub use laws::{lines_apart, lines_are_read};
pub use lines::{Reading, TranscriptLine};
pub use printing::print_line;
