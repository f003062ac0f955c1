//! Where DHCPv6 messages go (RFC 8415, section 7).

use net_types::{Ip6, Mac};

/// The port on which a client listens (RFC 8415, section 7.2).
pub const CLIENT_PORT: u16 = 546;

/// The port on which servers and relay agents listen (RFC 8415, section 7.2).
pub const SERVER_PORT: u16 = 547;

/// ff02::1:2, all servers and relay agents on the link (RFC 8415, section 7.1).
pub const ALL_RELAY_AGENTS_AND_SERVERS: Ip6 = Ip6 {
    number: 0xff02_0000_0000_0000_0000_0000_0001_0002,
};

/// The hardware address of that group: 33 33 and the last four bytes of the address (RFC 2464, section 7).
pub const ALL_RELAY_AGENTS_AND_SERVERS_MAC: Mac = Mac {
    bytes: [0x33, 0x33, 0x00, 0x01, 0x00, 0x02],
};
