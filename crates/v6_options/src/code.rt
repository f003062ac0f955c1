//! The codes of options, by their numbers (RFC 8415, section 24; RFC 3646; RFC 7083).

/// The DUID of the client (RFC 8415, section 21.2).
pub const CLIENT_IDENTIFIER: u16 = 1;
/// The DUID of the server (RFC 8415, section 21.3).
pub const SERVER_IDENTIFIER: u16 = 2;
/// An identity association of addresses (RFC 8415, section 21.4).
pub const IA_NA: u16 = 3;
/// An address of an IA_NA (RFC 8415, section 21.6).
pub const IA_ADDRESS: u16 = 5;
/// The codes that a client wants values of (RFC 8415, section 21.7).
pub const OPTION_REQUEST: u16 = 6;
/// How much a server wants to be chosen (RFC 8415, section 21.8).
pub const PREFERENCE: u16 = 7;
/// Hundredths of a second since the exchange began (RFC 8415, section 21.9).
pub const ELAPSED_TIME: u16 = 8;
/// How a request went (RFC 8415, section 21.13).
pub const STATUS_CODE: u16 = 13;
/// An exchange of two messages (RFC 8415, section 21.14).
pub const RAPID_COMMIT: u16 = 14;
/// Servers of domain names (RFC 3646, section 3).
pub const DNS_SERVERS: u16 = 23;
/// Domains in which short names are looked up (RFC 3646, section 4).
pub const DOMAIN_LIST: u16 = 24;
/// An identity association of prefixes (RFC 8415, section 21.21).
pub const IA_PD: u16 = 25;
/// A prefix of an IA_PD (RFC 8415, section 21.22).
pub const IA_PREFIX: u16 = 26;
/// The longest time between two SOLICITs, in seconds (RFC 8415, section 21.24).
pub const SOL_MAX_RT: u16 = 82;
