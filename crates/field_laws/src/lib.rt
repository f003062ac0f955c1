//! What a field of a line is, and the laws of each kind of field and of fields together.
//!
//! It has no code: `line_grammar` reads and prints the fields.
#![tactic(auto)]

mod laws;

pub use laws::{fields_are_made_of_fields, kinds_are_fields};
