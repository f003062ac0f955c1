//! The lines of a transcript after its head, read one by one: rows, networks and addresses in any spelling, all else as
//! it is printed.
#![tactic(auto)]

mod calls;
mod fields;
mod hooks;
mod kinds;
mod laws;
mod lines;
mod reading;
mod role;
mod turns;

pub use laws::a_text_spells_one_line;
pub use lines::{FileReading, ToldLine};
pub use reading::{is_printable, read_line, role_of};
pub use role::Role;
