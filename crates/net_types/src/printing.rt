//! The printed forms of addresses, nets and names.
ghost use Rattle.std.specs.Prelude.{◌≡◌, ◌++◌, ◌^◌, ◌/◌, ◌%◌, ◌<◌, flat_map, IfSome, OnErr, OnOk, Some};
ghost use Rattle.std.specs.Net.Addr.{ipv6_segments};
ghost use Rattle.std.specs.String.{string_bytes};
ghost use Rattle.net_types.specs.AddressText.{group_of, groups_of, ip4_text, ip6_text, mac_text, net4_text, net6_text, net_text};
ghost use Rattle.net_types.specs.HexText.{byte_hex, hex_text};
ghost use Rattle.net_types.specs.NameText.{name_text};

use crate::address::{Ip4, Ip6, Mac, Net, Net4, Net6};
use crate::fault::NoMemory;
use crate::hexadecimal::{digits_of, write_pairs};
use crate::interface::Name;
use std::fmt::Display;
use std::net::Ipv6Addr;
use std::{cmp, fmt, str};

#[tactic(auto, unfolding(crate::specs::AddressText::ip4_text))]
impl Display for Ip4 {
    ghost output = { λ ip. Some (ip4_text ip) };

    fn fmt<W: fmt::Write>(&self, f: &mut fmt::Formatter<W>) -> fmt::Result {
        let number = self.number;
        let a = number >> 24;
        let b = (number >> 16) % 256;
        let c = (number >> 8) % 256;
        let d = number % 256;
        write!(f, "{a}.{b}.{c}.{d}")
    }
}

fn group_at(number: u128, shift: u32) -> u16
    requires { shift < 128 }
    ensures { result ≡ group_of number shift }
{
    ((number >> shift) % 0x1_0000) as u16
}

/// The address as std's, whose text is that of RFC 5952.
fn std_address(ip: &Ip6) -> Ipv6Addr
    ensures { ipv6_segments result ≡ groups_of ip.now.number }
{
    let n = ip.number;
    Ipv6Addr::new(
        group_at(n, 112),
        group_at(n, 96),
        group_at(n, 80),
        group_at(n, 64),
        group_at(n, 48),
        group_at(n, 32),
        group_at(n, 16),
        group_at(n, 0),
    )
}

#[tactic(auto, unfolding(crate::specs::AddressText::ip6_text))]
impl Display for Ip6 {
    ghost output = { λ ip. Some (ip6_text ip) };

    fn fmt<W: fmt::Write>(&self, f: &mut fmt::Formatter<W>) -> fmt::Result {
        let groups = std_address(self).hex_groups();
        write!(f, "{groups}")
    }
}

#[tactic(auto, unfolding(crate::specs::AddressText::net4_text))]
impl Display for Net4 {
    ghost output = { λ net. Some (net4_text net) };

    fn fmt<W: fmt::Write>(&self, f: &mut fmt::Formatter<W>) -> fmt::Result {
        write!(f, "{}/{}", self.ip, self.len)
    }
}

#[tactic(auto, unfolding(crate::specs::AddressText::net6_text))]
impl Display for Net6 {
    ghost output = { λ net. Some (net6_text net) };

    fn fmt<W: fmt::Write>(&self, f: &mut fmt::Formatter<W>) -> fmt::Result {
        write!(f, "{}/{}", self.ip, self.len)
    }
}

#[tactic(auto, unfolding(crate::specs::AddressText::net_text))]
impl Display for Net {
    ghost output = { λ net. Some (net_text net) };

    fn fmt<W: fmt::Write>(&self, f: &mut fmt::Formatter<W>) -> fmt::Result {
        match self {
            Net::V4(net) => Display::fmt(net, f),
            Net::V6(net) => Display::fmt(net, f),
        }
    }
}

/// A byte as two lower-case digits.
#[derive(Clone, Copy)]
struct HexByte(u8);

impl Display for HexByte {
    ghost output = { λ byte. Some (byte_hex byte.0) };

    fn fmt<W: fmt::Write>(&self, f: &mut fmt::Formatter<W>) -> fmt::Result {
        let digits = digits_of(self.0);
        f.write_str(str::from_utf8(&digits).map_err(|_| fmt::Error)?)
    }
}

/// How many bytes are written at a time.
const PIECE_LIMIT: usize = 32;

/// So many bytes at most, as pairs.
#[derive(Clone, Copy)]
struct Piece<'a>(&'a [u8]);

impl Display for Piece<'_> {
    ghost output = { λ piece. Some (flat_map byte_hex piece.0.now) };

    fn fmt<W: fmt::Write>(&self, f: &mut fmt::Formatter<W>) -> fmt::Result {
        let mut room = [0; 2 * PIECE_LIMIT];
        let Some(pairs) = room.get_mut(..2 * self.0.len()) else {
            return Err(fmt::Error);
        };
        write_pairs(self.0, pairs);
        f.write_str(str::from_utf8(pairs).map_err(|_| fmt::Error)?)
    }
}

/// Bytes as pairs up to the end.
#[derive(Clone, Copy)]
struct Pairs<'a>(&'a [u8]);

impl Display for Pairs<'_> {
    ghost output = { λ pairs. Some (flat_map byte_hex pairs.0.now) };

    fn fmt<W: fmt::Write>(&self, f: &mut fmt::Formatter<W>) -> fmt::Result {
        let mut rest = self.0;
        'pieces: while !rest.is_empty() {
            let (piece, others) = rest.split_at(cmp::min(rest.len(), PIECE_LIMIT));
            f.write(Piece(piece))?;
            rest = others;
        }
        Ok(())
    }
}

/// Bytes, printed as lower-case pairs, with `-` for none.
#[derive(Clone, Copy)]
pub struct Hex<'a>(pub &'a [u8]);

#[tactic(auto, unfolding(crate::specs::HexText::hex_text))]
impl Display for Hex<'_> {
    ghost output = { λ hex. Some (hex_text hex.0.now) };

    fn fmt<W: fmt::Write>(&self, f: &mut fmt::Formatter<W>) -> fmt::Result {
        if self.0.is_empty() {
            f.write_str("-")
        } else {
            f.write(Pairs(self.0))
        }
    }
}

#[tactic(auto, unfolding(crate::specs::AddressText::mac_text))]
impl Display for Mac {
    ghost output = { λ mac. Some (mac_text mac) };

    fn fmt<W: fmt::Write>(&self, f: &mut fmt::Formatter<W>) -> fmt::Result {
        let [a, b, c, d, e, g] = self.bytes;
        write!(
            f,
            "{}:{}:{}:{}:{}:{}",
            HexByte(a),
            HexByte(b),
            HexByte(c),
            HexByte(d),
            HexByte(e),
            HexByte(g)
        )
    }
}

#[tactic(auto, unfolding(crate::specs::NameText::name_text))]
impl Display for Name {
    ghost output = { λ name. Some (name_text name) };

    fn fmt<W: fmt::Write>(&self, f: &mut fmt::Formatter<W>) -> fmt::Result {
        f.write_str(str::from_utf8(self.as_bytes()).map_err(|_| fmt::Error)?)
    }
}

/// Appends the value's printed form; where memory runs out the text is as before.
pub fn append_text<D: Display + Drop>(value: D, into: &mut String) -> Result<(), NoMemory>
    ensures ok { OnOk result (IfSome (D.output value) (λ text. string_bytes into.new ≡ string_bytes into.old ++ text)) }
    ensures err { OnErr result (string_bytes into.new ≡ string_bytes into.old) }
{
    let alloc = *into.allocator();
    let text = String::format(alloc, value)?;
    into.push_str(text.as_str())?;
    Ok(())
}

/// Appends the dotted form of the address; where memory runs out the text is as before.
pub fn print_ip4(ip: Ip4, into: &mut String) -> Result<(), NoMemory>
    ensures ok { OnOk result (string_bytes into.new ≡ string_bytes into.old ++ ip4_text ip) }
    ensures err { OnErr result (string_bytes into.new ≡ string_bytes into.old) }
{
    append_text(ip, into)
}

/// Appends the RFC 5952 form of the address; where memory runs out the text is as before.
pub fn print_ip6(ip: Ip6, into: &mut String) -> Result<(), NoMemory>
    ensures ok { OnOk result (string_bytes into.new ≡ string_bytes into.old ++ ip6_text ip) }
    ensures err { OnErr result (string_bytes into.new ≡ string_bytes into.old) }
{
    append_text(ip, into)
}
