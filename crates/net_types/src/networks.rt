//! Networks of IPv4 addresses.
ghost use Rattle.std.specs.Prelude.{◌≡◌, ◌≤◌};
ghost use Rattle.net_types.specs.Networks.{address_count, is_within, mask_len, mask_of, network_of};

use crate::address::{Ip4, Net4};

/// How many addresses a network of this prefix length has.
fn address_count(len: u8) -> u64
    ensures { result ≡ address_count len }
{
    2u64.pow(u32::from(Net4::WIDTH.saturating_sub(len)))
}

impl Ip4 {
    /// The prefix length that the address tells as a mask: its leading ones.
    pub fn mask_len(self) -> u8
        ensures value { result ≡ mask_len self }
        ensures within { result ≤ 32 }
    {
        self.number.leading_ones() as u8
    }
}

impl Net4 {
    /// The length of an address in bits, which is the longest prefix.
    pub const WIDTH: u8 = 32;

    /// The net without the bits past its prefix.
    pub fn network(self) -> Net4
        ensures { result ≡ network_of self }
    {
        let number = u64::from(self.ip.number);
        let host = number % address_count(self.len);
        Net4 {
            ip: Ip4 {
                number: (number - host) as u32,
            },
            len: self.len,
        }
    }

    /// Whether the address has the net's prefix.
    pub fn contains(self, ip: Ip4) -> bool
        ensures { result ≡ is_within ip self }
    {
        let size = address_count(self.len);
        u64::from(ip.number) / size == u64::from(self.ip.number) / size
    }

    /// The mask of the net's prefix length.
    pub fn mask(self) -> Ip4
        ensures { result ≡ mask_of self.len }
    {
        let all = 2u64.pow(u32::from(Net4::WIDTH));
        Ip4 {
            number: (all - address_count(self.len)) as u32,
        }
    }
}
