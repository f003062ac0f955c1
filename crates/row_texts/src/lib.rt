//! The texts of host rows.
#![tactic(auto)]

mod rows;

pub use rows::{a_text_spells_one_row, iface_field_of, iface_of, print_row, read_row, row_of};
