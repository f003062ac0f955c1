//! How many bytes the fixed fields of options take (RFC 8415, section 21).
//!
//! ```text
//! | code (2) | length (2) | value |
//! ```

/// The code and the length of an option (RFC 8415, section 21.1).
pub const HEADER_LEN: usize = 4;
/// The fixed fields of an IA (RFC 8415, sections 21.4 and 21.21).
///
/// ```text
/// | iaid (4) | t1 (4) | t2 (4) | options |
/// ```
pub const IA_FIELDS_LEN: usize = 12;
/// The fixed fields of an address (RFC 8415, section 21.6).
///
/// ```text
/// | address (16) | preferred (4) | valid (4) | options |
/// ```
pub const ADDRESS_FIELDS_LEN: usize = 24;
/// The fixed fields of a prefix (RFC 8415, section 21.22).
///
/// ```text
/// | preferred (4) | valid (4) | length in bits (1) | prefix (16) | options |
/// ```
pub const PREFIX_FIELDS_LEN: usize = 25;
/// The fixed field of a status (RFC 8415, section 21.13).
///
/// ```text
/// | status (2) | text |
/// ```
pub const STATUS_FIELDS_LEN: usize = 2;
/// An address (RFC 4291, section 2).
pub const ADDRESS_LEN: usize = 16;
/// The bits of an address, which a prefix has at most.
pub const ADDRESS_BITS: u8 = 128;
