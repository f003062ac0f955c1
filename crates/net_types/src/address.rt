//! IPv4, IPv6 and hardware addresses, and IP addresses with a prefix length.

/// An IPv4 address as the number of its four bytes in network order (RFC 791).
#[derive(Clone, Copy, Debug, PartialEq, Eq)]
pub struct Ip4 {
    pub number: u32,
}

/// An IPv6 address as the number of its sixteen bytes in network order (RFC 8200).
#[derive(Clone, Copy, Debug, PartialEq, Eq)]
pub struct Ip6 {
    pub number: u128,
}

/// An IPv4 address with a prefix length of at most 32 (RFC 4632).
#[derive(Clone, Copy, Debug, PartialEq, Eq)]
pub struct Net4 {
    pub ip: Ip4,
    pub len: u8,
}

/// An IPv6 address with a prefix length of at most 128 (RFC 4291, section 2.3).
#[derive(Clone, Copy, Debug, PartialEq, Eq)]
pub struct Net6 {
    pub ip: Ip6,
    pub len: u8,
}

/// An address of either family with its prefix length.
#[derive(Clone, Copy, Debug, PartialEq, Eq)]
pub enum Net {
    V4(Net4),
    V6(Net6),
}

/// A 48-bit hardware address (IEEE 802), in the order sent.
#[derive(Clone, Copy, Debug, PartialEq, Eq)]
pub struct Mac {
    pub bytes: [u8; 6],
}
