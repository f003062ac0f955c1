//! Test vectors as lines of text, for the programs that answer them.
//!
//! ```text
//! WORD ARGUMENT | ARGUMENT ..        a vector: which call, and the bytes that it is asked about
//! fronts WORD ARGUMENT               the same for each front of the last argument
//! # ..                               no vector, and so is an empty line
//! ```
//!
//! An argument is pieces with blanks between them: texts in `'`, in which `\n` is a line feed, and bytes as pairs of
//! hexadecimal digits, which `*COUNT` repeats; `-` is no bytes. Each line is written again, and behind a vector ` = `
//! and its answer.
#![tactic(auto)]

mod answering;
mod reading;

pub use answering::{Answers, answer_all};
pub use reading::bytes_of;
