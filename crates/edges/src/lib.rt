//! The outside of the daemon on a real machine: the standard streams, files in a folder, scripts that keep the host's
//! rows, children that run hooks, and datagrams on the loopback address in the place of interfaces.
//!
//! The devices stand over traits, each method of which is one call of the system: `Disk` (of `system_calls`),
//! `Children` (of `child_devices`) and `Loopback` (of `loop_link`). Where a machine tells its calls, each device says
//! which it made, and that it answers by them. The runtime's own calls (`system`) tell nothing, and are trusted.
#![tactic(auto)]

mod machine;
mod streams;
mod system;

pub use child_devices::{ChildHooks, Children, CommandHost, HookNote, HostNote};
pub use folder_store::{FolderStore, savings_are_whole};
pub use loop_link::{
    LinkNote, LoopLink, Loopback, Salts, Watch, datagrams_are_these, loopback_is_this,
    salts_are_these,
};
pub use machine::{ChildWatch, SystemChildren, SystemDisk, SystemLoopback};
pub use streams::{StdSink, StdSource};
pub use system_calls::{Disk, Note};
