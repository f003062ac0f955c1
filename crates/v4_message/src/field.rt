//! Where the fields of a message lie (RFC 2131, section 2).
//!
//! ```text
//!   0 op, htype, hlen, hops       12 ciaddr    24 giaddr     108 file (128)
//!   4 xid                         16 yiaddr    28 chaddr (16) 236 cookie
//!   8 secs (2), flags (2)         20 siaddr    44 sname (64)  240 options
//! ```

pub(crate) const XID: usize = 4;

pub(crate) const SECS: usize = 8;

pub(crate) const FLAGS: usize = 10;

pub(crate) const CIADDR: usize = 12;

pub(crate) const YIADDR: usize = 16;

pub(crate) const CHADDR: usize = 28;

pub(crate) const SNAME: usize = 44;

pub(crate) const SNAME_LEN: usize = 64;

pub(crate) const FILE: usize = 108;

pub(crate) const FILE_LEN: usize = 128;

pub(crate) const COOKIE: usize = 236;

pub(crate) const OPTIONS: usize = 240;

/// The operations of a client and of a server.
pub(crate) const BOOT_REQUEST: u8 = 1;

pub(crate) const BOOT_REPLY: u8 = 2;
/// The hardware type and the address length of Ethernet.
pub(crate) const ETHERNET: u8 = 1;

pub(crate) const MAC_LEN: u8 = 6;
/// What stands before the options (RFC 2131, section 3).
pub(crate) const MAGIC_COOKIE: [u8; 4] = [0x63, 0x82, 0x53, 0x63];
