//! An auditor of transcripts: what is kept as the lines of one go by, over any judges of interfaces.
#![tactic(auto)]

mod auditor;
mod course;
mod seated;
mod unjust;

pub use audit_seats::{Seat, Watched, all_first, all_turned};
pub use audit_sites::{FileRead, Known, Managing, Opening, seats_of};
pub use audit_turns::{Going, what_goes_on_is_the_lifes};
pub use auditor::Auditor;
pub use unjust::Unjust;
