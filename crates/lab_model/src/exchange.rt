//! By what a lab tells one DHCPv4 exchange from another: its interface and its transaction number.

/// An exchange of an interface, by its transaction number (RFC 2131, section 2, xid).
#[derive(Clone, Copy, Debug, PartialEq, Eq, PartialOrd, Ord, Drop)]
pub struct Exchange {
    /// The number of the interface.
    pub iface: u32,
    pub xid: u32,
}
