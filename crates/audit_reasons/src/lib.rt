//! Why each address may be held that a transcript shows at the end of its lives, and the turns on which that rests.
#![tactic(auto)]

mod account;
mod explainer;

pub use account::{Account, explain, text_of};
pub use row_reasons::{AuditAnswer, BasisLine, Reason, Verdict, a_verdict_is_one, audit};
