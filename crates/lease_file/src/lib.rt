//! The calls that a life makes of its store: asides are cleared, and files are read, saved and removed.
#![tactic(auto)]

mod clearing;
mod faults;
mod laws;
mod reading;
mod saving;

pub use clearing::{Cleared, Clearing, clear_asides};
pub use faults::{SaveFault, SaveStep};
pub use laws::{a_crash_leaves_whole_files, clearing_keeps_files};
pub use reading::{Got, read_file, read_files};
pub use saving::{remove, save};
