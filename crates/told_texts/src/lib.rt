//! That what a transcript tells is spelled by the texts of its lines. Definitions, and the law about them.
#![tactic(auto)]

mod laws;

pub use laws::told_is_spelled;
