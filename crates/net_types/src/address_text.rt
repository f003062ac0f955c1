//! The texts of addresses and nets, read.
ghost use Rattle.std.specs.Prelude.{◌≡◌, ◌≢◌, ◌+◌, ◌*◌, ◌^◌, option_map, IfOk, IfErr};
ghost use Rattle.net_types.specs.Numbers.{number_at};
ghost use Rattle.net_types.specs.declared.address.Ip4.{Ip4};
ghost use Rattle.net_types.specs.declared.address.Net4.{Net4};
ghost use Rattle.net_types.specs.declared.address.Mac.{Mac};
ghost use Rattle.net_types.specs.AddressText.{ip4_text, net4_text, mac_text, ip4_at, net4_at, mac_at, octet_at, mac_byte_at, FitsIp4, FitsNet4, FitsMac};

use crate::address::{Ip4, Mac, Net4};
use crate::cutting::{FromText, split_at_byte};
use crate::fault::BadText;
use crate::hexadecimal::hex_byte_of;
use crate::number::u8_of;

/// One more than the largest number in a dotted text.
const OCTET_LIMIT: u64 = 256;
/// One more than the longest prefix of an IPv4 net.
const PREFIX4_LIMIT: u64 = 33;

fn ip4_from(a: u8, b: u8, c: u8, d: u8) -> Ip4
    ensures { result.number ≡ a * 2 ^ 24 + b * 2 ^ 16 + c * 2 ^ 8 + d }
{
    Ip4::from_octets([a, b, c, d])
}

/// The number before the first dot, and the text after it.
fn octet_of(bytes: &[u8]) -> Option<(u8, &[u8])>
    ensures { option_map (λ p. (p.0, p.1.now)) result ≡ octet_at bytes.now }
{
    let (part, rest) = split_at_byte(bytes, b'.')?;
    let octet = u8_of(part, OCTET_LIMIT)?;
    Some((octet, rest))
}

/// The address that the text spells in dotted form.
#[tactic(auto, unfolding(crate::specs::AddressText::ip4_at))]
pub fn ip4_of(bytes: &[u8]) -> Option<Ip4>
    ensures { result ≡ ip4_at bytes.now }
{
    let (a, rest) = octet_of(bytes)?;
    let (b, rest) = octet_of(rest)?;
    let (c, rest) = octet_of(rest)?;
    let d = u8_of(rest, OCTET_LIMIT)?;
    Some(ip4_from(a, b, c, d))
}

/// The net that the text spells: an address, a slash and a length.
#[tactic(auto, unfolding(crate::specs::AddressText::net4_at))]
pub fn net4_of(bytes: &[u8]) -> Option<Net4>
    ensures { result ≡ net4_at bytes.now }
{
    let (address, prefix) = split_at_byte(bytes, b'/')?;
    let ip = ip4_of(address)?;
    let len = u8_of(prefix, PREFIX4_LIMIT)?;
    Some(Net4 { ip, len })
}

/// The byte before the first colon, and the text after it.
fn mac_byte_of(bytes: &[u8]) -> Option<(u8, &[u8])>
    ensures { option_map (λ p. (p.0, p.1.now)) result ≡ mac_byte_at bytes.now }
{
    let (part, rest) = split_at_byte(bytes, b':')?;
    let byte = hex_byte_of(part)?;
    Some((byte, rest))
}

/// The hardware address that the text spells in lower-case pairs with colons.
#[tactic(auto, unfolding(crate::specs::AddressText::mac_at))]
pub fn mac_of(bytes: &[u8]) -> Option<Mac>
    ensures { result ≡ mac_at bytes.now }
{
    let (a, rest) = mac_byte_of(bytes)?;
    let (b, rest) = mac_byte_of(rest)?;
    let (c, rest) = mac_byte_of(rest)?;
    let (d, rest) = mac_byte_of(rest)?;
    let (e, rest) = mac_byte_of(rest)?;
    let f = hex_byte_of(rest)?;
    Some(Mac {
        bytes: [a, b, c, d, e, f],
    })
}

/// The IPv4 address that the text spells.
pub fn read_ip4(text: &str) -> Result<Ip4, BadText>
    ensures found { IfOk result (λ ip. (text.now ≡ ip4_text ip) × FitsIp4 ip) }
    ensures bad { IfErr result (λ _. (ip : Ip4) → FitsIp4 ip → text.now ≢ ip4_text ip) }
{
    match ip4_of(text.as_bytes()) {
        Some(ip) => Ok(ip),
        None => Err(BadText),
    }
}

/// The IPv4 net that the text spells.
pub fn read_net4(text: &str) -> Result<Net4, BadText>
    ensures found { IfOk result (λ net. (text.now ≡ net4_text net) × FitsNet4 net) }
    ensures bad { IfErr result (λ _. (net : Net4) → FitsNet4 net → text.now ≢ net4_text net) }
{
    match net4_of(text.as_bytes()) {
        Some(net) => Ok(net),
        None => Err(BadText),
    }
}

/// The hardware address that the text spells.
pub fn read_mac(text: &str) -> Result<Mac, BadText>
    ensures found { IfOk result (λ mac. (text.now ≡ mac_text mac) × FitsMac mac) }
    ensures bad { IfErr result (λ _. (mac : Mac) → FitsMac mac → text.now ≢ mac_text mac) }
{
    match mac_of(text.as_bytes()) {
        Some(mac) => Ok(mac),
        None => Err(BadText),
    }
}

impl FromText for Ip4 {
    ghost found = { ip4_at };

    fn from_text(text: &[u8]) -> Option<Ip4> {
        ip4_of(text)
    }
}

impl FromText for Net4 {
    ghost found = { net4_at };

    fn from_text(text: &[u8]) -> Option<Net4> {
        net4_of(text)
    }
}

impl FromText for Mac {
    ghost found = { mac_at };

    fn from_text(text: &[u8]) -> Option<Mac> {
        mac_of(text)
    }
}
