//! What the fields of a server's message hold, whatever it says (RFC 2131, section 2).

use net_types::Ip4;

/// The operation of a server.
pub(crate) const BOOT_REPLY: u8 = 2;
/// The hardware type and the address length of Ethernet.
pub(crate) const ETHERNET: u8 = 1;

pub(crate) const MAC_LEN: u8 = 6;
/// What stands before the options (RFC 2131, section 3).
pub(crate) const MAGIC_COOKIE: [u8; 4] = [0x63, 0x82, 0x53, 0x63];
/// Option 1: the mask of a network of 24 bits (RFC 2132, section 3.3).
pub(crate) const NETMASK: Ip4 = Ip4 {
    number: 0xffff_ff00,
};
