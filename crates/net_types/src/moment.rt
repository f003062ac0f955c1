//! Moments, in milliseconds since 1970.
ghost use Rattle.std.specs.Prelude.{◌≡◌};

/// Moments are below this: they have fifteen digits at most.
pub const MOMENT_LIMIT: u64 = 1_000_000_000_000_000;

/// Law: the limit of moments is 10^15 milliseconds.
pub fn moments_have_fifteen_digits()
    ensures moment_limit { MOMENT_LIMIT ≡ 1000000000000000 }
{}
