//! The calls at which a store in memory is told to fail: those listed by number, and all past a fuse.

ghost use Rattle.std.specs.Prelude.{◌≡◌};
ghost use Rattle.world.specs.StoreFails.{fails_at, is_past};
ghost use Rattle.store_mem.specs.Fuse.{first_stopped};

use call_record::Numbers;
use std::marker::Model;

/// Which calls of a store fail, by their numbers from 1.
#[derive(Drop)]
pub(crate) struct Fails {
    numbers: Numbers,
    /// The first of the calls that a fuse stops. It may lie past the range of numbers.
    first_stopped: Option<u128>,
}

impl Model for Fails {
    ghost use Rattle.world.specs.StoreFails.{StoreFails};

    ghost Value = { StoreFails };

    ghost view = { λ fails. record { numbers = fails.numbers; from = fails.first_stopped } };
}

fn stops(first: Option<u128>, number: u64) -> bool
    ensures { result ≡ is_past first number }
{
    match first {
        Some(first) => first <= u128::from(number),
        None => false,
    }
}

impl Fails {
    /// The calls with these numbers fail.
    pub(crate) fn new(numbers: Numbers) -> Fails
        ensures { result ≡ record { numbers = numbers; from = None } }
    {
        Fails {
            numbers,
            first_stopped: None,
        }
    }

    /// A fuse that passes so many calls after those that were answered, or no fuse.
    pub(crate) fn set_fuse(&mut self, answered: u64, calls: Option<u64>)
        ensures { self.new ≡ record self.old { from = first_stopped answered calls } }
    {
        self.first_stopped = match calls {
            Some(calls) => Some(u128::from(answered) + u128::from(calls) + 1),
            None => None,
        };
    }

    pub(crate) fn has(&self, number: u64) -> bool
        ensures { result ≡ fails_at self.now number }
    {
        self.numbers.has(number) || stops(self.first_stopped, number)
    }
}
