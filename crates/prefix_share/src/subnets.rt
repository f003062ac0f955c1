//! The subnet of a prefix for a share.
ghost use Rattle.std.specs.Prelude.{◌≡◌, ◌<◌, ◌^◌, nat_lt};
ghost use Rattle.prefix_share.specs.Subnets.{FitsShare, has_room, network_number, subnet_in};

use crate::share::Share;
use net_types::{Ip6, Net6};

/// The length of an IPv6 address in bits.
const WIDTH: u8 = 128;

/// The share's subnet of the prefix: the prefix's bits, then the SLA id in the bits that end at the share's
/// length, then zeros. None where the prefix is longer than that, or where the SLA id needs more bits than
/// lie between.
pub fn subnet(prefix: Net6, share: &Share) -> Option<Net6>
    requires { FitsShare share.now }
    ensures { result ≡ subnet_in prefix share.now }
{
    if !has_room(prefix.len, share) {
        return None;
    }
    let sla = u128::from(share.sla) << (WIDTH - share.len);
    Some(Net6 {
        ip: Ip6 {
            number: network_number(prefix) + sla,
        },
        len: share.len,
    })
}

/// Whether a prefix of this length has a subnet for the share.
pub(crate) fn has_room(prefix_len: u8, share: &Share) -> bool
    ensures { result ≡ has_room prefix_len share.now }
{
    prefix_len <= share.len && has_bits(share.sla, share.len - prefix_len)
}

/// Whether the number can be written in that many bits.
fn has_bits(number: u32, bits: u8) -> bool
    ensures { result ≡ nat_lt number (2 ^ bits) }
{
    u32::from(bits) >= u32::BITS || number < 1 << bits
}

/// The first address with the bits of the prefix (RFC 4291, section 2.3).
pub fn network_number(prefix: Net6) -> u128
    requires { prefix.len < 128 }
    ensures { result ≡ network_number prefix }
{
    prefix.ip.number & !(u128::MAX >> prefix.len)
}
