//! One life over the devices: its opening, its turns and its end.
#![tactic(auto)]

mod acts;
mod closing;
mod laws;
mod lives;
mod openings;
mod serving;
mod turns;
mod waking;

pub use laws::files_are_kept_by_the_same_calls;
pub use life_devices::{Devices, Outside};
pub use serving::{ServeEnd, serve};
