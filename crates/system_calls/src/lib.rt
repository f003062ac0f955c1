//! What devices ask of a machine: its calls on files and folders, what is told of each, and the count of those that
//! gave nothing.
#![tactic(auto)]

mod disks;
mod faults;
mod notes;

pub use disks::Disk;
pub use faults::{Faults, reason};
pub use notes::Note;
