//! What an auditor of transcripts is to say: whether each address that is shown on a managed interface has its basis,
//! and what is kept, line by line, to tell. Definitions, and the laws about them.
#![tactic(auto)]

mod laws;

pub use laws::{audits_tell_verdicts, lives_are_told_so, verdicts_are_one};
