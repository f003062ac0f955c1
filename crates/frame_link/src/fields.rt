//! Fields in network order at a place of a frame.

ghost use Rattle.std.specs.Prelude.{◌≡◌, ◌+◌, ◌≤◌, length};
ghost use Rattle.frame_link.specs.Fields as texts;

use byteorder::{BigEndian, ByteOrder};
use net_types::{Ip4, Mac};

/// The two bytes at `at` as a number.
pub fn word_at(bytes: &[u8], at: usize) -> u16
    requires { at + 2 ≤ length bytes.now }
    ensures { result ≡ texts.word_in bytes.now at }
{
    BigEndian::read_u16(&bytes[at..])
}

/// The four bytes at `at` as an IPv4 address.
pub fn ip4_at(bytes: &[u8], at: usize) -> Ip4
    requires { at + 4 ≤ length bytes.now }
    ensures { result ≡ texts.ip4_in bytes.now at }
{
    Ip4 {
        number: BigEndian::read_u32(&bytes[at..]),
    }
}

/// The six bytes at `at` as a hardware address.
pub fn mac_at(bytes: &[u8], at: usize) -> Mac
    requires { at + 6 ≤ length bytes.now }
    ensures { result ≡ texts.mac_in bytes.now at }
{
    Mac {
        bytes: [
            bytes[at],
            bytes[at + 1],
            bytes[at + 2],
            bytes[at + 3],
            bytes[at + 4],
            bytes[at + 5],
        ],
    }
}
