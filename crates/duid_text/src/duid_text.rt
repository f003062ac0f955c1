//! The text of a DUID.
ghost use Rattle.std.specs.Prelude.{◌≡◌, Some, IfOk};
ghost use Rattle.std.specs.Option.{option_map};
ghost use Rattle.net_types.specs.AddressText.{FitsMac};
ghost use Rattle.net_types.specs.HexText.{byte_hex};
ghost use Rattle.duid_text.specs.DuidTexts as texts;
ghost use Rattle.duid_text.specs.DuidReading.{bytes_at};

use net_types::{Hex, Mac, NoMemory, hex_byte_of};
use std::alloc::Global;
use std::fmt;
use std::fmt::Display;
use v6_options::Duid;

/// The DUID of a hardware address of Ethernet (DUID-LL; RFC 8415, section 11.4).
pub fn link_layer_duid(alloc: Global, mac: Mac) -> Result<Duid, NoMemory>
    requires { FitsMac mac }
    ensures { IfOk result (λ duid. duid.bytes.items ≡ texts.link_layer_duid mac) }
{
    let [a, b, c, d, e, f] = mac.bytes;
    match Duid::new(alloc, &[0, 3, 0, 1, a, b, c, d, e, f])? {
        Some(duid) => Ok(duid),
        None => unreachable!(),
    }
}

/// A byte as a pair of digits.
#[derive(Clone, Copy)]
struct Pair(u8);

#[tactic(auto, using(crate::proofs::Printing::one_byte))]
impl Display for Pair {
    ghost output = { λ pair. Some (byte_hex pair.0) };

    fn fmt<W: fmt::Write>(&self, f: &mut fmt::Formatter<W>) -> fmt::Result {
        f.write(Hex(&[self.0]))
    }
}

/// Bytes as pairs with colons between them, and a line feed. Nothing where there are no bytes.
#[derive(Clone, Copy)]
struct Pairs<'a>(&'a [u8]);

impl Display for Pairs<'_> {
    ghost output = { λ pairs. Some (texts.duid_text pairs.0.now) };

    fn fmt<W: fmt::Write>(&self, f: &mut fmt::Formatter<W>) -> fmt::Result {
        let [first, rest @ ..] = self.0 else {
            return Ok(());
        };
        f.write(Pair(*first))?;
        for byte in rest {
            write!(f, ":{}", Pair(*byte))?;
        }
        f.write_str("\n")
    }
}

/// The text of a DUID, with its line feed.
pub fn print_duid(alloc: Global, duid: &Duid) -> Result<Vec<u8>, NoMemory>
    ensures { IfOk result (λ text. text.items ≡ texts.duid_text duid.now.bytes.items) }
{
    let text = format!(in alloc; "{}", Pairs(duid.as_slice()))?;
    Ok(text.into_bytes())
}

/// The bytes of one pair or more, each with a colon after it, and the last with the line feed that ends the text.
fn bytes_of(alloc: Global, text: &[u8]) -> Result<Option<Vec<u8>>, NoMemory>
    ensures { IfOk result (λ o. option_map (λ v. v.items) o ≡ bytes_at text.now) }
{
    let mut bytes = Vec::new(alloc);
    let mut rest = text;
    'pairs: while let [high, low, mark, others @ ..] = rest {
        let Some(byte) = hex_byte_of(&[*high, *low]) else {
            return Ok(None);
        };
        bytes.push(byte)?;
        match *mark {
            b'\n' if others.is_empty() => return Ok(Some(bytes)),
            b':' => rest = others,
            _ => return Ok(None),
        }
    }
    Ok(None)
}

/// The DUID that a text spells: exactly one that `print_duid` prints. None for any other text.
#[tactic(auto, using(crate::proofs::ReadingLaws::spelled_some, crate::proofs::ReadingLaws::spelled_none))]
pub fn read_duid(alloc: Global, text: &[u8]) -> Result<Option<Duid>, NoMemory>
    ensures { IfOk result (λ duid. option_map (λ d. d.bytes.items) duid ≡ texts.duid_spelled text.now) }
{
    match bytes_of(alloc, text)? {
        Some(bytes) => Duid::new(alloc, &bytes),
        None => Ok(None),
    }
}
