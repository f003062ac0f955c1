//! What a life shows of an interface, turn by turn. Moments are in milliseconds since 1970.

ghost use Rattle.std.specs.Prelude.{◌≡◌};
ghost use Rattle.evidence_words.specs.Inputs.{index_at};
ghost use Rattle.audit_words.specs.Shown.{site_shown};

use lease_text::Lease4;
use lease6_text::Lease6;
use net_types::{IfIndex, Mac};
use settings::Managed;
use v6_options::Duid;
use world::Event;

/// A frame that was offered on an interface, and whether the link took it.
#[derive(Drop)]
pub struct Offer {
    pub iface: IfIndex,
    pub bytes: Vec<u8>,
    pub taken: bool,
}

/// A turn: its moment, its input with the bytes of a frame, and the frames offered, in order.
#[derive(Drop)]
pub struct Entry {
    pub moment: u64,
    pub event: Event,
    pub bytes: Vec<u8>,
    pub offers: Vec<Offer>,
}

/// What is known of an interface when a life begins: its settings, the DUID of the host, the hardware addresses of all
/// interfaces, whether it has carrier, and its own leases that were kept.
#[derive(Drop)]
pub struct Site {
    pub managed: Managed,
    pub duid: Duid,
    pub own: Vec<Mac>,
    pub up: bool,
    pub kept4: Option<Lease4>,
    pub kept6: Option<Lease6>,
}

impl Site {
    /// The interface's number.
    pub fn index(&self) -> u32
        ensures { result ≡ index_at (site_shown self.now) }
    {
        self.managed.spec.index.number
    }
}
