//! What runs as child processes of the daemon, over any machine that starts them: scripts that keep the host's rows, and
//! hooks.
#![tactic(auto)]

mod children;
mod commands;
mod processes;

pub use children::ChildHooks;
pub use commands::CommandHost;
pub use processes::{Children, HookNote, HostNote};
