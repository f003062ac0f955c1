//! The addresses that a server gives.

ghost use Rattle.std.specs.Prelude.{◌≡◌};
ghost use Rattle.lab_peer.specs.Pools as texts;

use net_types::Ip4;
use server_data::SERVER;

/// The most addresses of a pool.
pub const POOL_LIMIT: u32 = 256;

/// The addresses that a server gives, from the lowest to the highest one, and for how long.
#[derive(Clone, Copy, Debug, PartialEq, Eq)]
pub struct Pool {
    pub low: Ip4,
    pub high: Ip4,
    /// In seconds; `INFINITE_LEASE` is forever.
    pub lease: u32,
}

impl Pool {
    /// Whether it has at least one address and at most 256, without the server's own, and gives them for a second at
    /// least.
    pub fn is_valid(&self) -> bool
        ensures { result ≡ texts.is_pool self.now }
    {
        self.low.number <= self.high.number
            && self.high.number - self.low.number < POOL_LIMIT
            && !self.contains(SERVER)
            && self.lease > 0
    }

    /// Whether an address is one of these.
    pub(crate) fn contains(&self, addr: Ip4) -> bool
        ensures { result ≡ texts.in_pool addr self.now }
    {
        self.low.number <= addr.number && addr.number <= self.high.number
    }
}
