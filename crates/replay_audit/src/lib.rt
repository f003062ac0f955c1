//! That no transcript which `replay` writes shows an address without its basis. Definitions, and the laws about them.
#![tactic(auto)]

mod laws;

pub use laws::{lives_of_scripts_are_justified, what_replay_writes_is_justified};
