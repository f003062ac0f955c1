//! The supervisor of hook children: jobs wait in line, and one child runs at a time.
//!
//! New jobs are `put`. Where a child runs it is polled, and what the poll said is told by `polled`; then `next_job`
//! gives the job that is to be started, if there is one. A start that failed is told by `not_started`.
#![tactic(auto)]

mod answers;
mod child;
mod laws;
mod supervising;

pub use answers::{Dropped, Turned};
pub use laws::{jobs_are_numbered, jobs_start_in_order, one_child_runs};
pub use supervising::{
    Supervisor, next_job, not_started, polled, put, running, supervisor_new, waiting,
};
