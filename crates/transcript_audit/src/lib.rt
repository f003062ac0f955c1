//! The verdict on a transcript: whether each address that it shows on a managed interface has its basis.
#![tactic(auto)]

mod auditing;
mod judging;
mod laws;
mod verdict;

pub use audit_follower::{
    FileRead, Going, Known, Managing, Opening, Seat, Watched, all_first, all_turned, seats_of,
    what_goes_on_is_the_lifes,
};
pub use auditing::audit;
pub use iface_judge::{IfaceJudge, Judge};
pub use laws::a_verdict_is_one;
pub use transcript_read::TranscriptAnswer as AuditAnswer;
pub use verdict::Verdict;
