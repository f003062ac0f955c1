//! What a client is told about itself.

ghost use Rattle.std.specs.Prelude.{◌≡◌};

use net_types::{IfSpec, Net4};
use settings::{Flags, Times};
use v4_message::Ask4;

/// The settings of a client.
#[derive(Drop)]
pub struct Set4 {
    /// The interface that it serves.
    pub iface: IfSpec,
    /// The directives of one word, and the numbers of seconds, of the interface.
    pub flags: Flags,
    pub times: Times,
    /// What it says of itself in its messages, each text of at most 255 bytes.
    pub ask: Ask4,
    /// The codes that an OFFER or an ACK must have.
    pub required: Vec<u8>,
    /// The codes that aren't taken from an ACK.
    pub refused: Vec<u8>,
    /// The networks of the servers that aren't listened to.
    pub blacklist: Vec<Net4>,
}

/// The settings that the table of states looks at: those of `Set4` that are plain values.
#[derive(Clone, Copy, PartialEq, Eq)]
pub struct Site4 {
    pub iface: IfSpec,
    pub flags: Flags,
    pub times: Times,
}
