//! The random words of a link.

ghost use Rattle.std.specs.Prelude.{◌≡◌, ℕ};
ghost use Rattle.rand_core.specs.Steps.{stream_of};
ghost use Rattle.loop_link.specs.Salts.{salt_step, salt_steps};

use rand_core::utils::NextWord;
use rand_core::{Rng, utils};
use std::marker::Model;

/// How far the state goes on for each word: the odd number next to 2^64 divided by the golden ratio.
pub(crate) const STRIDE: u64 = 0x9e37_79b9_7f4a_7c15;

/// The factor of the first mixing.
pub(crate) const FIRST: u64 = 0xbf58_476d_1ce4_e5b9;

/// The factor of the second.
pub(crate) const SECOND: u64 = 0x94d0_49bb_1331_11eb;

/// The random words of a link, by SplitMix64 (Steele, Lea and Flood, "Fast splittable pseudorandom number generators",
/// OOPSLA 2014, with the mixing of Stafford's thirteenth variant). A contract sees its state.
#[derive(Drop)]
pub struct Salts {
    state: u64,
}

impl Model for Salts {
    ghost Value = { ℕ };

    ghost view = { λ salts. salts.state };
}

impl Salts {
    /// The words that a number begins.
    pub fn begun_by(number: u64) -> Salts
        ensures { result ≡ number }
    {
        Salts { state: number }
    }
}

impl NextWord<u64> for Salts {
    ghost step = { salt_step };

    fn next_word(&mut self) -> u64 {
        self.state = self.state.wrapping_add(STRIDE);
        let first = (self.state ^ (self.state >> 30)).wrapping_mul(FIRST);
        let second = (first ^ (first >> 27)).wrapping_mul(SECOND);
        second ^ (second >> 31)
    }
}

impl Rng for Salts {
    ghost stream = { stream_of salt_steps };

    /// The high half of a word.
    fn next_u32(&mut self) -> u32 {
        (self.next_word() >> 32) as u32
    }

    fn next_u64(&mut self) -> u64 {
        self.next_word()
    }

    fn fill_bytes(&mut self, dst: &mut [u8]) {
        utils::fill_bytes_via_u64(self, dst)
    }
}
