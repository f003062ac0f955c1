//! Timed machines: what each of them is to the loop that drives it, and the random draws that they
//! make.
//!
//! A moment is a number of milliseconds since 1970. A salt is the random word of a turn.
#![tactic(auto)]

mod laws;
mod salt;
mod timed;

pub use laws::early_ticks_rest;
pub use salt::{draw, draw_xid};
pub use timed::{LAST_MOMENT, Machine, clamp_moment, has_come};
