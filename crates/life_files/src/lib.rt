//! The files of a life: what its opening reads of them, and how each is kept, one call of the store at a time.
#![tactic(auto)]

mod duids;
mod filed;
mod files;
mod keeping;
mod kept;
mod names;
pub mod stores;

pub use files::{Found, load_all};
pub use keeping::{KeptFile, Touched};
pub use kept::{KeptFiles, keep_files};
