//! A table that finds, by the index of an interface, the places of the interfaces with this index.

ghost use Rattle.std.specs.Prelude.{◌≡◌, ◌==◌, ◌&&◌, ◌||◌, ℕ, ◌≤◌, []};
ghost use Rattle.client_core.specs.Names.{AreNamed, named_as};
ghost use Rattle.client_core.specs.Places.{has};

use crate::places::Places;

/// The greatest index of an interface, and one more.
const INDICES: usize = 65;

/// Which places the interfaces of each index have.
#[derive(Clone, Copy)]
pub struct Named {
    pub table: [Places; INDICES],
}

impl Named {
    /// There is no interface.
    pub fn none() -> Named
        ensures { AreNamed [] result }
    {
        Named {
            table: [Places::none(); INDICES],
        }
    }

    /// The interface at a place has this index.
    pub fn name(&mut self, place: usize, index: u32)
        requires { index ≤ 64 }
        ensures { (other at : ℕ)
            → has (named_as self.new other) at ≡ ((other == index && at == place) || has (named_as self.old other) at) }
    {
        let places = self.table[index as usize];
        self.table[index as usize] = places.with(place);
    }

    /// The places of those with this index.
    pub fn places(&self, index: u32) -> Places
        ensures { result ≡ named_as self.now index }
    {
        let index = index as usize;
        if index >= INDICES {
            return Places::none();
        }
        self.table[index]
    }
}
