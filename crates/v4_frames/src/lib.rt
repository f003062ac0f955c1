//! A DHCPv4 client's frames: what each spells, byte for byte, and what a server's frame has for the client
//! (RFC 2131).
#![tactic(auto)]

mod constants;
mod heard;
mod laws;
pub mod sent;
mod speaker;

pub use constants::numbers_are_those_assigned;
pub use heard::{Heard4, heard4_of};
pub use laws::{
    frames_are_read_back, frames_spell_one_message, other_frames_spell_nothing,
    spelled_frames_alone,
};
pub use sent::{CLIENT_PORT, EVERY_MAC, SERVER_PORT, Sent4, build4};
pub use speaker::{BROADCAST_FLAG, Speaker};
