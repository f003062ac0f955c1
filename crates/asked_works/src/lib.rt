//! The works of the program, and the words that ask for each: none asks for two.
#![tactic(auto)]

mod words;

pub use words::{Import, Work, is_alone, work_of};
