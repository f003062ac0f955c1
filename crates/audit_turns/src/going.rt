//! The turn that goes on, and the addresses that are shown.
ghost use Rattle.std.specs.Prelude.{◌<◌, ◌^◌};

use audit_words::Entry;
use std::collections::BTreeSet;
use world::HostRow;

/// What the turn that goes on shows so far, whether a call of the host failed in it, the numbers of the managed
/// interfaces, and the addresses that are shown of these, in row order.
#[derive(Drop)]
pub struct Going {
    pub entry: Entry,
    pub failed: bool,
    pub numbers: Vec<u32>,
    pub rows: BTreeSet<HostRow>,
    pub ghost early: { entry.moment < 10 ^ 15 },
}
