//! The rows that a host is to hold, of all that the interfaces bring: kept by what changes, and never made anew.
#![tactic(auto)]

mod bringing;
mod diffs;
mod host_rows;
mod standing;
mod tables;
mod union;

pub use counted_search::{Counted, Ledger, Plain, Steps};
pub use diffs::Diffs;
pub use host_rows::HostRows;
pub use tables::Tables;
pub use union::Diff;
