//! Whether a message is one that this client may say (RFC 2131, section 4.4.1 and table 5).

ghost use Rattle.std.specs.Prelude.{◌≡◌};
ghost use Rattle.v4_frames.specs.Ours as texts;

use crate::sent::{EVERY_MAC, Sent4};
use net_types::{Ip4, Mac};
use v4_message::{Kind4, Said4};

/// The flags that ask servers to answer by broadcast (RFC 2131, section 2).
pub const BROADCAST_FLAG: u16 = 0x8000;

/// A client, as its messages show it.
#[derive(Clone, Copy, PartialEq, Eq)]
pub struct Speaker {
    /// The hardware address of its interface.
    pub mac: Mac,
    /// Whether it asks servers to answer by broadcast (RFC 2131, section 4.1).
    pub broadcast: bool,
}

impl Speaker {
    /// Whether the client may say this message between these ends: with its own hardware address, the flags
    /// that are set, no seconds but in a DISCOVER and in the REQUEST for an offer, and by each kind from its
    /// address or from none, to its server or to everyone.
    pub fn is_ours(&self, sent: &Sent4) -> bool
        ensures { result ≡ texts.is_ours self.now sent.now }
    {
        sent.said.mac == self.mac && sent.ends.from_mac == self.mac && self.is_our_kind(sent)
    }

    fn is_our_kind(&self, sent: &Sent4) -> bool
        ensures { result ≡ texts.is_our_kind self.now sent.now sent.now.said.kind }
    {
        let said = sent.said;
        match said.kind {
            Kind4::Discover => {
                has_no_address(sent)
                    && self.asks_for_answers(said)
                    && said.asked.is_none()
                    && said.server.is_none()
            }
            Kind4::Request => self.is_our_request(sent),
            Kind4::Decline => {
                has_no_address(sent)
                    && is_plain(said)
                    && said.asked.is_some()
                    && said.server.is_some()
            }
            Kind4::Release => {
                has_address(sent)
                    && is_plain(said)
                    && said.asked.is_none()
                    && goes_to(said.server, sent)
            }
        }
    }

    fn is_our_request(&self, sent: &Sent4) -> bool
        ensures { result ≡ texts.is_our_request self.now sent.now sent.now.said.asked sent.now.said.server }
    {
        let said = sent.said;
        match (said.asked, said.server) {
            // selecting
            (Some(_), Some(_)) => has_no_address(sent) && self.asks_for_answers(said),
            // init-reboot
            (Some(_), None) => {
                has_no_address(sent) && self.asks_for_answers(said) && said.secs == 0
            }
            // renewing or rebinding
            (None, None) => has_address(sent) && is_plain(said),
            (None, Some(_)) => false,
        }
    }

    fn asks_for_answers(&self, said: Said4) -> bool
        ensures { result ≡ texts.asks_for_answers self.now said }
    {
        let flags = if self.broadcast { BROADCAST_FLAG } else { 0 };
        said.flags == flags
    }
}

/// From no address to everyone.
fn has_no_address(sent: &Sent4) -> bool
    ensures { result ≡ texts.has_no_address sent.now }
{
    sent.said.ciaddr == Ip4::UNSPECIFIED
        && sent.ends.from == Ip4::UNSPECIFIED
        && sent.ends.to == Ip4::BROADCAST
        && sent.ends.to_mac == EVERY_MAC
}

/// From the address that is held.
fn has_address(sent: &Sent4) -> bool
    ensures { result ≡ texts.has_address sent.now }
{
    sent.said.ciaddr != Ip4::UNSPECIFIED && sent.ends.from == sent.said.ciaddr
}

fn is_plain(said: Said4) -> bool
    ensures { result ≡ texts.is_plain said }
{
    said.flags == 0 && said.secs == 0
}

fn goes_to(server: Option<Ip4>, sent: &Sent4) -> bool
    ensures { result ≡ texts.goes_to server sent.now }
{
    match server {
        Some(server) => sent.ends.to == server,
        None => false,
    }
}
