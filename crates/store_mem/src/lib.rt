//! The store of files in memory: it fails at the calls it is told and past a fuse, keeps a record of its calls, and a crash
//! leaves what isn't settled undone, or all as it reads.
#![tactic(auto)]

mod crashes;
mod fails;
mod files;
mod replaying;
mod stores;
mod undoing;

pub use crashes::Pick;
pub use stores::{MemFile, MemStore};
