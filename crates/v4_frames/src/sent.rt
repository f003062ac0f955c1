//! What a client says in one frame.

ghost use Rattle.std.specs.Prelude.{◌≡◌, IfOk};
ghost use Rattle.v4_message.specs.Requests.{AskFits, ask_content};
ghost use Rattle.v4_frames.specs.Spelled.{frame_of};

use net_types::{Mac, NoMemory};
use std::alloc::Global;
use udp_frame::{Ends4, build_udp4};
use v4_message::{Ask4, Said4, write4};

/// The port on which a client listens (RFC 2131, section 4.1).
pub const CLIENT_PORT: u16 = 68;

/// The port on which a server listens (RFC 2131, section 4.1).
pub const SERVER_PORT: u16 = 67;

/// The hardware address of every host of the link.
pub const EVERY_MAC: Mac = Mac { bytes: [0xff; 6] };

/// A message, and the ends between which it goes.
#[derive(Clone, Copy, PartialEq, Eq)]
pub struct Sent4 {
    pub ends: Ends4,
    pub said: Said4,
}

/// The frame of a client's message, which goes from the client's port to the server's.
pub fn build4(alloc: Global, sent: &Sent4, ask: &Ask4) -> Result<Vec<u8>, NoMemory>
    requires { AskFits (ask_content ask.now) }
    ensures { IfOk result (λ frame. frame.items ≡ frame_of (ask_content ask.now) sent.now) }
{
    let message = write4(alloc, &sent.said, ask)?;
    build_udp4(alloc, &sent.ends, CLIENT_PORT, SERVER_PORT, &message)
}
