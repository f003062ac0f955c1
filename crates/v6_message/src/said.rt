//! What a client says.

ghost use Rattle.std.specs.Prelude.{◌≤◌, length};

use crate::kind::Kind6;
use net_types::Net6;
use v6_options::{Duid, IaKind};

/// An IA of a client's message with the addresses (nets of length 128) or prefixes that it names: at most four.
#[derive(Drop)]
pub struct IaAsked {
    pub kind: IaKind,
    pub iaid: u32,
    pub items: Vec<Net6>,
    ghost few: { length items.items ≤ 4 },
}

/// A message of a client. It has at most six IAs.
#[derive(Drop)]
pub struct Said6 {
    pub kind: Kind6,
    /// Below 2^24.
    pub xid: u32,
    /// Hundredths of a second since the exchange began (RFC 8415, section 21.9).
    pub elapsed: u16,
    /// The server that is spoken to.
    pub server: Option<Duid>,
    /// Whether a Reply may answer a SOLICIT at once (RFC 8415, section 21.14).
    pub rapid: bool,
    pub ias: Vec<IaAsked>,
    ghost few: { length ias.items ≤ 6 },
}

impl IaAsked {
    /// How many addresses or prefixes an IA names at most.
    pub const ITEMS_MAX: usize = 4;
}

impl Said6 {
    /// How many IAs a message has at most.
    pub const IAS_MAX: usize = 6;
}
