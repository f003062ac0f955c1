//! The daemon's store as files in one folder, over any machine that has such files. It tells what the folder holds
//! where the machine does.
#![tactic(auto)]

mod failures;
mod folder;
mod laws;
mod listing;
mod naming;
mod reading;
mod writing;

pub use folder::FolderStore;
pub use laws::savings_are_whole;
