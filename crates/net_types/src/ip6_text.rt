//! The texts of IPv6 addresses and nets, read.
ghost use Rattle.std.specs.Prelude.{◌≡◌, IfOk, IfErr, IfSome, bytes_eq};
ghost use Rattle.std.specs.List.{list_all};
ghost use Rattle.net_types.specs.declared.address.Ip6.{Ip6};
ghost use Rattle.net_types.specs.declared.address.Net6.{Net6};
ghost use Rattle.net_types.specs.Ip6Text.{SpellsIp6, SpellsNet6, groups_at, ip6_at, ip6_from, is_group_byte, net6_at, printed_ip6_at, printed_net6_at};

use crate::address::{Ip6, Net6};
use crate::cutting::{FromText, split_at_byte};
use crate::fault::{BadText, NoMemory};
use crate::number::u8_of;
use std::alloc::Global;
use std::fmt::Display;
use std::net::Ipv6Addr;

/// One more than the longest prefix of an IPv6 net.
const PREFIX6_LIMIT: u64 = 129;

fn are_group_bytes(bytes: &[u8]) -> bool
    ensures { result ≡ list_all is_group_byte bytes.now }
{
    bytes.iter().all(|b| b.is_ascii_hexdigit() || *b == b':')
}

/// The eight groups that the text spells.
fn groups_of(bytes: &[u8]) -> Option<[u16; 8]>
    ensures { result ≡ groups_at bytes.now }
{
    match Ipv6Addr::parse_ascii(bytes) {
        Ok(address) => Some(address.segments()),
        Err(_) => None,
    }
}

/// The address of eight groups.
fn ip6_from(groups: [u16; 8]) -> Ip6
    ensures { result ≡ ip6_from groups }
{
    let [a, b, c, d, e, f, g, h] = groups;
    let number = u128::from(a) * 0x1_0000 + u128::from(b);
    let number = number * 0x1_0000 + u128::from(c);
    let number = number * 0x1_0000 + u128::from(d);
    let number = number * 0x1_0000 + u128::from(e);
    let number = number * 0x1_0000 + u128::from(f);
    let number = number * 0x1_0000 + u128::from(g);
    Ip6 {
        number: number * 0x1_0000 + u128::from(h),
    }
}

/// The address that the text spells, in any spelling without a dotted tail (RFC 4291, section 2.2).
#[tactic(auto, unfolding(crate::specs::Ip6Text::ip6_at))]
pub fn ip6_of(bytes: &[u8]) -> Option<Ip6>
    ensures { result ≡ ip6_at bytes.now }
{
    if !are_group_bytes(bytes) {
        return None;
    }
    Some(ip6_from(groups_of(bytes)?))
}

/// The net that the text spells: an address, a slash and a length.
#[tactic(auto, unfolding(crate::specs::Ip6Text::net6_at))]
pub fn net6_of(bytes: &[u8]) -> Option<Net6>
    ensures { result ≡ net6_at bytes.now }
{
    let (address, prefix) = split_at_byte(bytes, b'/')?;
    let ip = ip6_of(address)?;
    let len = u8_of(prefix, PREFIX6_LIMIT)?;
    Some(Net6 { ip, len })
}

/// Whether the bytes are the printed form of the value.
fn is_printed<D: Display + Drop>(alloc: Global, bytes: &[u8], value: D) -> Result<bool, NoMemory>
    ensures { IfOk result (λ is. IfSome (D.output value) (λ text. is ≡ bytes_eq bytes.now text)) }
{
    let text = String::format(alloc, value)?;
    Ok(bytes == text.as_bytes())
}

/// The address whose printed form the text is (RFC 5952).
#[tactic(auto, unfolding(crate::specs::Ip6Text::printed_ip6_at))]
pub fn printed_ip6_of(alloc: Global, bytes: &[u8]) -> Result<Option<Ip6>, NoMemory>
    ensures { IfOk result (λ ip. ip ≡ printed_ip6_at bytes.now) }
{
    match ip6_of(bytes) {
        Some(ip) => {
            if is_printed(alloc, bytes, ip)? {
                Ok(Some(ip))
            } else {
                Ok(None)
            }
        }
        None => Ok(None),
    }
}

/// The net whose printed form the text is.
#[tactic(auto, unfolding(crate::specs::Ip6Text::printed_net6_at))]
pub fn printed_net6_of(alloc: Global, bytes: &[u8]) -> Result<Option<Net6>, NoMemory>
    ensures { IfOk result (λ net. net ≡ printed_net6_at bytes.now) }
{
    match net6_of(bytes) {
        Some(net) => {
            if is_printed(alloc, bytes, net)? {
                Ok(Some(net))
            } else {
                Ok(None)
            }
        }
        None => Ok(None),
    }
}

/// The IPv6 address that the text spells.
pub fn read_ip6(text: &str) -> Result<Ip6, BadText>
    ensures found { IfOk result (λ ip. SpellsIp6 text.now ip) }
    ensures bad { IfErr result (λ _. (ip : Ip6) → ¬ (SpellsIp6 text.now ip)) }
{
    match ip6_of(text.as_bytes()) {
        Some(ip) => Ok(ip),
        None => Err(BadText),
    }
}

/// The IPv6 net that the text spells.
pub fn read_net6(text: &str) -> Result<Net6, BadText>
    ensures found { IfOk result (λ net. SpellsNet6 text.now net) }
    ensures bad { IfErr result (λ _. (net : Net6) → ¬ (SpellsNet6 text.now net)) }
{
    match net6_of(text.as_bytes()) {
        Some(net) => Ok(net),
        None => Err(BadText),
    }
}

impl FromText for Ip6 {
    ghost found = { ip6_at };

    fn from_text(text: &[u8]) -> Option<Ip6> {
        ip6_of(text)
    }
}

impl FromText for Net6 {
    ghost found = { net6_at };

    fn from_text(text: &[u8]) -> Option<Net6> {
        net6_of(text)
    }
}
