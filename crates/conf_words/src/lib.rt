//! The lines and words of a configuration (dhcpcd.conf(5)).
//!
//! `read` gives the directives of a text up to its first line that isn't text, `arguments_of` what follows a directive.
//! Nothing is copied: words borrow the text.
#![tactic(auto)]

mod arguments;
mod characters;
mod cutting;
mod laws;
mod lines;
mod reading;

pub use arguments::{Argument, Form, arguments_of, whole_argument};
pub use characters::is_text;
pub use laws::{arguments_are_one, lines_are_one, readings_are_one};
pub use lines::{Line, directive_of, first_line};
pub use reading::{Reading, read};
