//! A DHCPv6 client's frames: what each spells, byte for byte, and what a server's frame has for the client
//! (RFC 8415).
#![tactic(auto)]

mod heard;
mod laws;
mod sent;

pub use heard::{Heard6, heard6_of};
pub use laws::{
    frames_are_read_back, frames_spell_one_message, frames_to_the_client_are_heard,
    other_frames_spell_nothing, spelled_frames_alone,
};
pub use sent::{build6, client_ends};
