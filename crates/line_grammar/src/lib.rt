//! Lines of text as a word and its fields. Each kind of field has its text, its reader and its law, and so has a row of
//! fields.
#![tactic(auto)]

mod field;
mod kinds;

pub use field::{AppendField, InnerField, ReadField, append_line, read_line};
pub use kinds::Below;
