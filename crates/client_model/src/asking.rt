//! The types of identifier by which a DHCPv4 client names itself, and the codes of the options that it requests.

use v4_options::code;

/// The hardware type of Ethernet, with which the identifier of a client begins that is its hardware address (RFC 2132,
/// section 9.14).
pub const ETHERNET: u8 = 1;

/// The type of an identifier that is an IAID and a DUID (RFC 4361, section 6.1).
pub const BY_DUID: u8 = 255;

/// The codes that a client asks for (RFC 2132, section 9.8; RFC 3442 wants classless routes before routers).
pub const WANTED_CODES: [u8; 11] = [
    code::SUBNET_MASK,
    code::CLASSLESS_ROUTES,
    code::ROUTERS,
    code::DOMAIN_NAME_SERVERS,
    code::DOMAIN_NAME,
    code::BROADCAST_ADDRESS,
    code::LEASE_TIME,
    code::SERVER_IDENTIFIER,
    code::RENEWAL_TIME,
    code::REBINDING_TIME,
    code::DOMAIN_SEARCH,
];
