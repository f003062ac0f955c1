//! RAND, the random part of a time: from -0.1 to 0.1, as the thousandths above -0.1 (RFC 8415, section 15).

ghost use Rattle.std.specs.Prelude.{◌≡◌, ◌≤◌};
ghost use Rattle.v6_retrans.specs.Retransmission.{positive_rand_of, rand_of};

use machine::draw;
use net_types::IfIndex;

/// RAND as 0 to 200 thousandths above -0.1.
pub fn draw_rand(salt: u64, iface: IfIndex) -> u32
    ensures value { result ≡ rand_of salt iface }
    ensures most { result ≤ 200 }
{
    draw(salt, iface, 201)
}

/// RAND above 0, as the time of the first SOLICIT needs it (RFC 8415, section 18.2.1).
pub fn draw_positive_rand(salt: u64, iface: IfIndex) -> u32
    ensures value { result ≡ positive_rand_of salt iface }
    ensures least { 101 ≤ result }
    ensures most { result ≤ 200 }
{
    101 + draw(salt, iface, 100)
}
