//! Reading and printing the addresses and routes of a host as text; a text stands for one of them at most.

ghost use Rattle.std.specs.Prelude.{◌≡◌, ◌++◌, ℕ, List, option_map, IfOk, IfErr, OnOk, OnErr};
ghost use Rattle.std.specs.String.{string_bytes};
ghost use Rattle.net_types.specs.Cutting.{field_at};
ghost use Rattle.world.specs.RowText.{row_text};
ghost use Rattle.world.specs.Rows.{IsRow};
ghost use Rattle.world.specs.declared.rows.HostRow.{HostRow};
ghost use Rattle.script_model.specs.RowSpellings.{SpellsRow};
ghost use Rattle.row_texts.specs.RowReading.{iface_at, metric_at, net_at, gateway_at, on_link_at, reject_at, gate_at, tail_at, addr_at, is_prefix, is_network, is_way_to, route_parts_at, route_at, row_at};

use net_types::{
    BadText, IfIndex, Net, NoMemory, append_text, ip4_of, ip6_of, net4_of, net6_of, number_of,
    split_at_byte, strip_word,
};
use world::{HostRow, Via};

/// One more than the largest number of an interface.
const INTERFACE_LIMIT: u64 = 65;
/// One more than the largest metric.
const METRIC_LIMIT: u64 = 4_294_967_296;

/// The number of an interface, 1 to 64.
#[tactic(auto, unfolding(crate::specs::RowReading::iface_at))]
pub fn iface_of(bytes: &[u8]) -> Option<IfIndex>
    ensures { result ≡ iface_at bytes.now }
{
    let number = number_of(bytes, INTERFACE_LIMIT)?;
    if number >= 1 {
        Some(IfIndex {
            number: number as u32,
        })
    } else {
        None
    }
}

/// The interface before the first blank, and the text after it.
pub fn iface_field_of(bytes: &[u8]) -> Option<(IfIndex, &[u8])>
    ensures { option_map (λ p. (p.0, p.1.now)) result ≡ field_at 32 iface_at bytes.now }
{
    let (part, rest) = split_at_byte(bytes, b' ')?;
    let iface = iface_of(part)?;
    Some((iface, rest))
}

/// An address of either family, a slash and the prefix length.
#[tactic(auto, unfolding(crate::specs::RowReading::net_at))]
fn net_of(bytes: &[u8]) -> Option<Net>
    ensures { result ≡ net_at bytes.now }
{
    match net4_of(bytes) {
        Some(net) => Some(Net::V4(net)),
        None => Some(Net::V6(net6_of(bytes)?)),
    }
}

fn net_field_of(bytes: &[u8]) -> Option<(Net, &[u8])>
    ensures { option_map (λ p. (p.0, p.1.now)) result ≡ field_at 32 net_at bytes.now }
{
    let (part, rest) = split_at_byte(bytes, b' ')?;
    let net = net_of(part)?;
    Some((net, rest))
}

/// A gateway of either family.
#[tactic(auto, unfolding(crate::specs::RowReading::gateway_at))]
fn gateway_of(bytes: &[u8]) -> Option<Via>
    ensures { result ≡ gateway_at bytes.now }
{
    match ip4_of(bytes) {
        Some(gateway) => Some(Via::Gate4(gateway)),
        None => Some(Via::Gate6(ip6_of(bytes)?)),
    }
}

fn gateway_field_of(bytes: &[u8]) -> Option<(Via, &[u8])>
    ensures { option_map (λ p. (p.0, p.1.now)) result ≡ field_at 32 gateway_at bytes.now }
{
    let (part, rest) = split_at_byte(bytes, b' ')?;
    let gateway = gateway_of(part)?;
    Some((gateway, rest))
}

#[tactic(auto, unfolding(crate::specs::RowReading::metric_at))]
fn metric_of(bytes: &[u8]) -> Option<u32>
    ensures { result ≡ metric_at bytes.now }
{
    let metric = number_of(bytes, METRIC_LIMIT)?;
    Some(metric as u32)
}

#[tactic(auto, unfolding(crate::specs::RowReading::on_link_at))]
fn on_link_of(bytes: &[u8]) -> Option<(Via, u32)>
    ensures { result ≡ on_link_at bytes.now }
{
    let metric = metric_of(bytes)?;
    Some((Via::OnLink, metric))
}

#[tactic(auto, unfolding(crate::specs::RowReading::reject_at))]
fn reject_of(bytes: &[u8]) -> Option<(Via, u32)>
    ensures { result ≡ reject_at bytes.now }
{
    let metric = metric_of(bytes)?;
    Some((Via::Reject, metric))
}

#[tactic(auto, unfolding(crate::specs::RowReading::gate_at))]
fn gate_of(bytes: &[u8]) -> Option<(Via, u32)>
    ensures { result ≡ gate_at bytes.now }
{
    let (gateway, rest) = gateway_field_of(bytes)?;
    let rest = strip_word(rest, b"metric ")?;
    let metric = metric_of(rest)?;
    Some((gateway, metric))
}

/// Where a route leads, and its metric.
#[tactic(auto, unfolding(crate::specs::RowReading::tail_at))]
fn tail_of(bytes: &[u8]) -> Option<(Via, u32)>
    ensures { result ≡ tail_at bytes.now }
{
    match strip_word(bytes, b"metric ") {
        Some(rest) => on_link_of(rest),
        None => match strip_word(bytes, b"reject metric ") {
            Some(rest) => reject_of(rest),
            None => gate_of(strip_word(bytes, b"via ")?),
        },
    }
}

#[tactic(auto, unfolding(crate::specs::RowReading::addr_at))]
fn addr_of(bytes: &[u8]) -> Option<HostRow>
    ensures { result ≡ addr_at bytes.now }
{
    let (iface, rest) = iface_field_of(bytes)?;
    let net = net_of(rest)?;
    Some(HostRow::Addr { iface, net })
}

/// Whether no bit of the number is set past the length.
fn is_prefix6(number: u128, len: u8) -> bool
    ensures { result ≡ is_prefix 128 number len }
{
    if len == 0 {
        return number == 0;
    }
    let past = 128_u8.saturating_sub(len);
    number % 2_u128.pow(u32::from(past)) == 0
}

/// Whether no bit is set past the length.
fn is_network(net: Net) -> bool
    ensures { result ≡ is_network net }
{
    match net {
        Net::V4(net) => {
            let past = 32_u8.saturating_sub(net.len);
            u64::from(net.ip.number) % (1 << past) == 0
        }
        Net::V6(net) => is_prefix6(net.ip.number, net.len),
    }
}

/// Whether a gateway is of the destination's family.
fn is_way_to(dest: Net, via: Via) -> bool
    ensures { result ≡ is_way_to dest via }
{
    match (dest, via) {
        (_, Via::OnLink | Via::Reject) => true,
        (Net::V4(_), Via::Gate4(_)) | (Net::V6(_), Via::Gate6(_)) => true,
        (Net::V4(_), Via::Gate6(_)) | (Net::V6(_), Via::Gate4(_)) => false,
    }
}

#[tactic(auto, unfolding(crate::specs::RowReading::route_parts_at))]
fn route_parts_of(bytes: &[u8]) -> Option<(IfIndex, (Net, (Via, u32)))>
    ensures { result ≡ route_parts_at bytes.now }
{
    let (iface, rest) = iface_field_of(bytes)?;
    let (dest, rest) = net_field_of(rest)?;
    let tail = tail_of(rest)?;
    Some((iface, (dest, tail)))
}

#[tactic(auto, unfolding(crate::specs::RowReading::route_at))]
fn route_of(bytes: &[u8]) -> Option<HostRow>
    ensures { result ≡ route_at bytes.now }
{
    let (iface, (dest, (via, metric))) = route_parts_of(bytes)?;
    if is_network(dest) && is_way_to(dest, via) {
        Some(HostRow::Route {
            iface,
            dest,
            via,
            metric,
        })
    } else {
        None
    }
}

/// The row that the bytes spell.
#[tactic(auto, unfolding(crate::specs::RowReading::row_at))]
pub fn row_of(bytes: &[u8]) -> Option<HostRow>
    ensures { result ≡ row_at bytes.now }
{
    match strip_word(bytes, b"addr ") {
        Some(rest) => addr_of(rest),
        None => route_of(strip_word(bytes, b"route ")?),
    }
}

/// Reads a row: an address or a route of either family, an IPv6 address in any spelling.
pub fn read_row(text: &str) -> Result<HostRow, BadText>
    ensures found { IfOk result (λ row. SpellsRow text.now row × IsRow row) }
    ensures bad { IfErr result (λ _. (row : HostRow) → IsRow row → ¬ (SpellsRow text.now row)) }
{
    match row_of(text.as_bytes()) {
        Some(row) => Ok(row),
        None => Err(BadText),
    }
}

/// Appends the text of a row. Where memory runs out what was there stays.
pub fn print_row(row: &HostRow, into: &mut String) -> Result<(), NoMemory>
    ensures ok { OnOk result (string_bytes into.new ≡ string_bytes into.old ++ row_text row.now) }
    ensures err { OnErr result (string_bytes into.new ≡ string_bytes into.old) }
{
    append_text(*row, into)
}

/// A text spells one row at most. This does nothing: its contract is the law.
pub fn a_text_spells_one_row()
    ensures { (text : List ℕ) (one other : HostRow) → IsRow one → IsRow other → SpellsRow text one
        → SpellsRow text other → one ≡ other }
{}
