//! The top call: what the words of the program ask for.
#![tactic(auto)]

mod living;
mod making;
mod running;

pub use asked_works::is_alone;
pub use daemon::{Devices, ServeEnd, serve};
pub use replayed_lives::{Status, hooks_change_nothing, labs_hold_apart, write_text};
pub use running::run;
