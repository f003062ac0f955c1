//! The ports of `live`.
ghost use Rattle.std.specs.Prelude.{◌≡◌};
ghost use Rattle.live_words.specs.LiveReading.{port_at, ports_at};

use net_types::number_of;

/// One more than the last port.
const PORT_LIMIT: u64 = 65536;

/// The link's own port and its peer's: from 1, and unlike.
#[derive(Clone, Copy, Debug, PartialEq, Eq)]
pub struct Ports {
    pub own: u16,
    pub peer: u16,
}

/// The port that a word spells.
#[tactic(auto, unfolding(crate::specs::LiveReading::port_at))]
fn port_of(word: &str) -> Option<u16>
    ensures { result ≡ port_at word.now }
{
    let port = number_of(word.as_bytes(), PORT_LIMIT)?;
    if port >= 1 { Some(port as u16) } else { None }
}

/// The ports that the words spell.
pub fn ports_of(own: &str, peer: &str) -> Option<Ports>
    ensures { result ≡ ports_at (port_at own.now) (port_at peer.now) }
{
    match (port_of(own), port_of(peer)) {
        (Some(own), Some(peer)) => {
            if own == peer {
                None
            } else {
                Some(Ports { own, peer })
            }
        }
        _ => None,
    }
}
