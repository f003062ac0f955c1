//! What a client asks for.

use v6_options::IaKind;

/// An IA that is asked for (RFC 8415, section 12).
#[derive(Clone, Copy, PartialEq, Eq)]
pub struct IaAsk {
    pub kind: IaKind,
    pub iaid: u32,
    /// The length of the prefix that is wished for, in bits; 0 where none is.
    pub hint: u8,
}
