//! Heard Ethernet frames, taken apart into the addresses and the kind in their header, and the body that follows it.

ghost use Rattle.std.specs.Prelude.{◌≡◌};
ghost use Rattle.std.specs.Option.{option_map};
ghost use Rattle.frame_link.specs.Frames.{frame_in, shown};

use crate::fields::{mac_at, word_at};
use net_types::Mac;

/// The bytes of an Ethernet header.
const ETH_HEADER_LEN: usize = 14;

/// A heard Ethernet frame (RFC 894). The body is what follows the header, padding with it.
///
/// ```text
/// | to (6) | from (6) | kind (2) | body .. |
/// ```
#[derive(Clone, Copy)]
pub struct EthView<'a> {
    pub to: Mac,
    pub from: Mac,
    pub kind: u16,
    pub body: &'a [u8],
}

/// The frame that the bytes spell, and None where they are fewer than a header.
#[tactic(auto, unfolding(crate::specs::Frames::frame_in))]
pub fn eth_of<'a>(frame: &'a [u8]) -> Option<EthView<'a>>
    ensures { option_map shown result ≡ frame_in frame.now }
{
    if frame.len() < ETH_HEADER_LEN {
        return None;
    }
    Some(EthView {
        to: mac_at(frame, 0),
        from: mac_at(frame, 6),
        kind: word_at(frame, 12),
        body: &frame[ETH_HEADER_LEN..],
    })
}
