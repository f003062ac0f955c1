//! The outside of the daemon: what each device is asked, what it answers, and what is known of it.
#![tactic(auto)]

mod crash_laws;
mod faults;
mod hooking;
mod hosts;
mod links;
mod reasons;
mod row_laws;
mod row_text;
mod rows;
mod stores;
mod streams;
mod wakes;

pub use crash_laws::what_a_crash_leaves;
pub use faults::{DeviceAnswer, done};
pub use hooking::{HookJob, HookVar, Hooks, Poll, add_variables};
pub use hosts::Host;
pub use links::Link;
pub use net_types::{Failed, NoMemory};
pub use reasons::{Reason, reason_text};
pub use row_laws::row_order_laws;
pub use rows::{HostRow, Via};
pub use stores::Store;
pub use streams::{Sink, Source};
pub use wakes::{Begin, Event, Wake};
