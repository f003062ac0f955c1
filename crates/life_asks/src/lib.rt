//! What a turn asks of the link, the host and the hooks, each call with its lines in the transcript.
#![tactic(auto)]

mod changes;
mod hooks;
mod hosts;
mod sends;
mod tables;

pub use hooks::{hook_turn, hooks_due, poll_child};
pub use hosts::host_turn;
pub use sends::offer_all;
pub use tables::{Pending, Table};
