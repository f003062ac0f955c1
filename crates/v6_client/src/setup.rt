//! What a client is told about itself.

use net_types::IfSpec;
use settings::Flags;
use v6_items::IaAsk;
use v6_options::Duid;

/// The settings of a client.
#[derive(Drop)]
pub struct Set6 {
    /// The interface that it serves.
    pub iface: IfSpec,
    /// The directives of one word of the interface.
    pub flags: Flags,
    /// What servers tell it by (RFC 8415, section 11).
    pub duid: Duid,
    /// What it asks for: at most six IAs, unlike in kind or IAID.
    pub ias: Vec<IaAsk>,
    /// Whether a server may answer a SOLICIT by a Reply (RFC 8415, section 18.2.1).
    pub rapid: bool,
}

/// The settings that the table of states looks at: those of `Set6` that are plain values.
#[derive(Clone, Copy, PartialEq, Eq)]
pub struct Site6 {
    pub iface: IfSpec,
    pub flags: Flags,
    pub rapid: bool,
}
