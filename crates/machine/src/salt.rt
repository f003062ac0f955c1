//! The numbers and transaction ids that are derived from a turn's random word and the number of an interface.

ghost use Rattle.std.specs.Prelude.{◌≡◌, ◌≢◌, ◌<◌, IfSome};
ghost use Rattle.machine.specs.Draw.{draw_of, draw_xid_of};

use net_types::IfIndex;

/// How many numbers of 32 bits there are.
const WORDS: u64 = 1 << 32;

/// A number below `n` from the salt's lower 32 bits, so that interfaces of one turn draw unlike ones.
pub fn draw(salt: u64, iface: IfIndex, n: u32) -> u32
    requires { 0 < n }
    ensures value { result ≡ draw_of salt iface n }
    ensures below { result < n }
{
    let sum = salt % WORDS + u64::from(iface.number);
    (sum % u64::from(n)) as u32
}

/// The transaction id of a new exchange, from the salt's upper 32 bits. It is never `last`, that of
/// the machine's exchange before.
pub fn draw_xid(salt: u64, iface: IfIndex, last: Option<u32>) -> u32
    ensures value { result ≡ draw_xid_of salt iface last }
    ensures fresh { IfSome last (λ before. result ≢ before) }
{
    let xid = ((salt / WORDS + u64::from(iface.number)) % WORDS) as u32;
    match last {
        Some(before) if before == xid => xid.wrapping_add(1),
        _ => xid,
    }
}
