//! Interfaces in their order, as many as a host may have, in the value itself.
ghost use Rattle.std.specs.Prelude.{◌≡◌, ◌<◌, ◌≤◌, [], ◌∷◌, ◌++◌, length};

use net_types::{IfIndex, IfSpec, Mac, Name};
use std::marker::Model;

/// The most interfaces.
pub const MOST_INTERFACES: usize = 64;

/// What stands at the places that aren't used.
const BLANK: IfSpec = IfSpec {
    index: IfIndex { number: 0 },
    name: Name {
        bytes: [0; 15],
        len: 0,
    },
    mac: Mac { bytes: [0; 6] },
};

/// At most 64 interfaces, in their order. They take no memory beside the value.
#[derive(Drop)]
pub struct Interfaces {
    specs: [IfSpec; MOST_INTERFACES],
    len: usize,
}

impl Model for Interfaces {
    ghost use Rattle.std.specs.Prelude.{List, ◌≤◌, take};
    ghost use Rattle.net_types.specs.declared.interface.IfSpec.{IfSpec};

    ghost Value = { List IfSpec };

    ghost view = { λ all. take all.len all.specs };

    ghost invariant = { λ all. all.len ≤ 64 };
}

impl Interfaces {
    /// No interface.
    pub(crate) fn new() -> Interfaces
        ensures { result ≡ [] }
    {
        Interfaces {
            specs: [BLANK; MOST_INTERFACES],
            len: 0,
        }
    }

    /// The interfaces.
    pub fn as_slice(&self) -> &[IfSpec]
        ensures value { result.now ≡ self.now }
        ensures few { length result.now ≤ 64 }
    {
        &self.specs[..self.len]
    }

    /// Adds one at the end.
    pub(crate) fn push(&mut self, spec: IfSpec)
        requires { length self.old < 64 }
        ensures { self.new ≡ self.old ++ spec ∷ [] }
    {
        self.specs[self.len] = spec;
        self.len += 1;
    }
}
