//! What a lease file says, as the variables that hooks are told.
#![tactic(auto)]

mod dumping;

pub use dumping::{DumpAnswer, append_variables, dump};
