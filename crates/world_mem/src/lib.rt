//! The outside of the daemon in memory: devices that hold what they are made with, fail at the calls they are told,
//! and keep a record of their calls.
#![tactic(auto)]

mod hooking;
mod hosts;
mod links;
mod small_rows;
mod streams;

pub use hooking::{MemHooks, MemPoll};
pub use hosts::MemHost;
pub use links::{MemLink, MemWake};
pub use store_mem::{MemFile, MemStore, Pick};
pub use streams::{MemSink, MemSource};
