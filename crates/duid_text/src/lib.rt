//! The file in which the DUID of the host lies: its text, printed and read; and the DUID of a hardware address.
#![tactic(auto)]

mod duid_text;
mod laws;

pub use duid_text::{link_layer_duid, print_duid, read_duid};
pub use laws::duids_are_read_back;
