//! Why an address may be held that a life shows, in the turns of that life, and the lines that say so.
#![tactic(auto)]

mod finding;
mod line;
mod lived;
mod reason;

pub use audit_words::Entry;
pub use basis_turns::{ShownTurn, found_bases_are_shown};
pub use line::BasisLine;
pub use lived::{Lived, judged_rows};
pub use reason::Reason;
pub use transcript_audit::{
    AuditAnswer, FileRead, Going, Known, Managing, Opening, Verdict, a_verdict_is_one, audit,
    what_goes_on_is_the_lifes,
};
