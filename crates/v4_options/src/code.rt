//! The codes of options, by their numbers (RFC 2132, RFC 3397, RFC 3442).

/// One byte of padding, which has no length byte (RFC 2132, section 3.1).
pub const PAD: u8 = 0;
/// The option that gives the network's mask (RFC 2132, section 3.3).
pub const SUBNET_MASK: u8 = 1;
/// Routers, the preferred one first (RFC 2132, section 3.5).
pub const ROUTERS: u8 = 3;
/// Servers of domain names (RFC 2132, section 3.8).
pub const DOMAIN_NAME_SERVERS: u8 = 6;
/// The name of the client (RFC 2132, section 3.14).
pub const HOST_NAME: u8 = 12;
/// The domain of the client (RFC 2132, section 3.17).
pub const DOMAIN_NAME: u8 = 15;
/// The largest packet of the interface (RFC 2132, section 5.1).
pub const INTERFACE_MTU: u8 = 26;
/// The address to which the network broadcasts (RFC 2132, section 5.3).
pub const BROADCAST_ADDRESS: u8 = 28;
/// Servers of the time (RFC 2132, section 8.3).
pub const NTP_SERVERS: u8 = 42;
/// The address that a client asks for (RFC 2132, section 9.1).
pub const REQUESTED_ADDRESS: u8 = 50;
/// How long a lease lasts, in seconds (RFC 2132, section 9.2).
pub const LEASE_TIME: u8 = 51;
/// Whether the fields file and sname hold options too (RFC 2132, section 9.3).
pub const OVERLOAD: u8 = 52;
/// The type of the message (RFC 2132, section 9.6).
pub const MESSAGE_TYPE: u8 = 53;
/// The address of the server that speaks or is spoken to (RFC 2132, section 9.7).
pub const SERVER_IDENTIFIER: u8 = 54;
/// The codes that a client wants values of (RFC 2132, section 9.8).
pub const PARAMETER_REQUEST_LIST: u8 = 55;
/// The largest message that a client takes (RFC 2132, section 9.10).
pub const MAXIMUM_MESSAGE_SIZE: u8 = 57;
/// When a client renews its lease, in seconds from its start (RFC 2132, section 9.11).
pub const RENEWAL_TIME: u8 = 58;
/// When a client rebinds its lease, in seconds from its start (RFC 2132, section 9.12).
pub const REBINDING_TIME: u8 = 59;
/// The vendor and kind of the client (RFC 2132, section 9.13).
pub const VENDOR_CLASS: u8 = 60;
/// What tells a client apart from the others of its network (RFC 2132, section 9.14).
pub const CLIENT_IDENTIFIER: u8 = 61;
/// Domains in which short names are looked up (RFC 3397).
pub const DOMAIN_SEARCH: u8 = 119;
/// Routes with their destinations (RFC 3442).
pub const CLASSLESS_ROUTES: u8 = 121;
/// The end of an area, which has no length byte (RFC 2132, section 3.2).
pub const END: u8 = 255;
