//! A scripted DHCPv4 server (RFC 2131) for experiments with many clients: what it makes of each frame of a client, and
//! what it has bound until when. It knows no client's configuration.
#![tactic(auto)]

mod binding;
mod client_frame;
mod constants;
mod laws;
mod peer;
mod pool;

pub use binding::Bound4;
pub use client_frame::client_sent;
pub use constants::peer_numbers_are_these;
pub use laws::{acks_bind, bindings_last, client_frames_alone, client_frames_are_read};
pub use peer::Peer;
pub use pool::{POOL_LIMIT, Pool};
