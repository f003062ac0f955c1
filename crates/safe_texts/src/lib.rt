//! What hooks and the resolver are told is safe to read, whatever servers and files said: laws over all events, steps
//! and lives.
#![tactic(auto)]

mod laws;

pub use laws::{
    configured_lives_are_safe, job_variables_are_exact, job_variables_are_safe,
    resolver_lines_are_safe, unfinished_lives_are_safe,
};
