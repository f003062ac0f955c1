//! The transaction ids of a client's exchanges.

ghost use Rattle.std.specs.Prelude.{◌≡◌};
ghost use Rattle.v6_client.specs.Exchanges.{xid_drawn};

use net_types::IfIndex;

/// The upper word of a salt begins at this bit.
const WORD_BITS: u32 = 32;
/// How many transaction ids there are (RFC 8415, section 8).
const XIDS: u64 = 1 << 24;

/// The transaction id of a new exchange, from the salt's upper word. It is never `last`, that of the exchange before.
pub(crate) fn draw_xid(salt: u64, iface: IfIndex, last: Option<u32>) -> u32
    ensures { result ≡ xid_drawn salt iface last }
{
    let xid = (salt >> WORD_BITS) + u64::from(iface.number);
    let drawn = (xid % XIDS) as u32;
    match last {
        Some(before) if before == drawn => ((u64::from(drawn) + 1) % XIDS) as u32,
        _ => drawn,
    }
}
