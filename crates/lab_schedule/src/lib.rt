//! Schedules of a lab and their texts: what comes to its clients and to its peer, one thing after another.
#![tactic(auto)]

mod event;
mod laws;
mod lines;
mod reading;
mod schedule;

pub use event::LabEvent;
pub use laws::schedules_are_one;
pub use reading::{ScheduleAnswer, read_schedule};
pub use schedule::Schedule;
