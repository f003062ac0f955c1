//! Fields in network order at a place of bytes.
ghost use Rattle.std.specs.Prelude.{◌≡◌, ◌+◌, ◌≤◌, length};
ghost use Rattle.net_types.specs.Fields.{field, ip4_field, ip4_octets, ip6_field, ip6_octets, mac_field, u16_field, u16_octets, u32_field, u32_octets};
ghost use Rattle.std.specs.Int.{from_be_bytes, w32, w128};

use crate::address::{Ip4, Ip6, Mac};
use byteorder::{BigEndian, ByteOrder};

impl Ip4 {
    /// The address of no host (RFC 1122, section 3.2.1.3).
    pub const UNSPECIFIED: Ip4 = Ip4 { number: 0 };

    /// The address of all hosts of the link (RFC 919, section 7).
    pub const BROADCAST: Ip4 = Ip4 {
        number: 0xffff_ffff,
    };

    /// The address of its four bytes in network order.
    pub fn from_octets(octets: [u8; 4]) -> Ip4
        ensures { result.number ≡ from_be_bytes w32 octets }
    {
        Ip4 {
            number: BigEndian::read_u32(&octets),
        }
    }

    /// The four bytes in network order.
    pub fn octets(self) -> [u8; 4]
        ensures { result ≡ ip4_octets self }
    {
        u32_octets(self.number)
    }
}

impl Ip6 {
    /// The address of its sixteen bytes in network order.
    pub fn from_octets(octets: [u8; 16]) -> Ip6
        ensures { result.number ≡ from_be_bytes w128 octets }
    {
        Ip6 {
            number: BigEndian::read_u128(&octets),
        }
    }

    /// The sixteen bytes in network order.
    pub fn octets(self) -> [u8; 16]
        ensures { result ≡ ip6_octets self }
    {
        let mut octets = [0; 16];
        BigEndian::write_u128(&mut octets, self.number);
        octets
    }
}

/// So many bytes from a place on.
pub fn field(bytes: &[u8], at: usize, len: usize) -> &[u8]
    requires { at + len ≤ length bytes.now }
    ensures { result.now ≡ field at len bytes.now }
{
    let (_, after) = bytes.split_at(at);
    let (field, _) = after.split_at(len);
    field
}

/// The two bytes at `at` as a number.
pub fn u16_field(bytes: &[u8], at: usize) -> u16
    requires { at + 2 ≤ length bytes.now }
    ensures { result ≡ u16_field at bytes.now }
{
    BigEndian::read_u16(&bytes[at..])
}

/// The four bytes at `at` as a number.
pub fn u32_field(bytes: &[u8], at: usize) -> u32
    requires { at + 4 ≤ length bytes.now }
    ensures { result ≡ u32_field at bytes.now }
{
    BigEndian::read_u32(&bytes[at..])
}

/// The four bytes at `at` as an address.
pub fn ip4_field(bytes: &[u8], at: usize) -> Ip4
    requires { at + 4 ≤ length bytes.now }
    ensures { result ≡ ip4_field at bytes.now }
{
    Ip4 {
        number: u32_field(bytes, at),
    }
}

/// The sixteen bytes at `at` as an address.
pub fn ip6_field(bytes: &[u8], at: usize) -> Ip6
    requires { at + 16 ≤ length bytes.now }
    ensures { result ≡ ip6_field at bytes.now }
{
    Ip6 {
        number: BigEndian::read_u128(&bytes[at..]),
    }
}

/// The six bytes at `at` as a hardware address.
pub fn mac_field(bytes: &[u8], at: usize) -> Mac
    requires { at + 6 ≤ length bytes.now }
    ensures { result ≡ mac_field at bytes.now }
{
    let mut octets = [0; 6];
    octets.copy_from_slice(field(bytes, at, 6));
    Mac { bytes: octets }
}

/// The two bytes of a number.
pub fn u16_octets(number: u16) -> [u8; 2]
    ensures { result ≡ u16_octets number }
{
    let mut octets = [0; 2];
    BigEndian::write_u16(&mut octets, number);
    octets
}

/// The four bytes of a number.
pub fn u32_octets(number: u32) -> [u8; 4]
    ensures { result ≡ u32_octets number }
{
    let mut octets = [0; 4];
    BigEndian::write_u32(&mut octets, number);
    octets
}
