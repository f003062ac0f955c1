//! The Internet checksum of bytes that come in pieces (RFC 1071).

ghost use Rattle.std.specs.Prelude.{◌≤◌};

pub mod calls;

/// The one's complement sum of the bytes so far.
#[derive(Clone, Copy)]
pub struct Sum {
    /// The sum, of which the carry has come back in.
    pub total: u32,
    /// Whether the last byte was the high one of its word.
    pub odd: bool,
    pub ghost small: { total ≤ 65535 },
}
