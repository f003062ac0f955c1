//! Appending to bytes.
ghost use Rattle.std.specs.Prelude.{◌≡◌, ◌++◌, ◌*◌, ◌<◌, codes, decimal, flat_map, length, OnOk, OnErr};
ghost use Rattle.net_types.specs.AddressText.{ip4_text, mac_text, net4_text};
ghost use Rattle.net_types.specs.Cutting.{StandsInFront};
ghost use Rattle.net_types.specs.HexText.{byte_hex, hex_text};

use crate::address::{Ip4, Mac, Net4};
use crate::fault::NoMemory;
use crate::hexadecimal::{BLOCK_DIGITS, BLOCK_LEN, digits_of, write_pairs};
use itoa::Buffer;

/// Appends bytes as they are; where memory runs out nothing.
pub fn append_bytes(bytes: &[u8], into: &mut Vec<u8>) -> Result<(), NoMemory>
    ensures ok { OnOk result (into.new.items ≡ into.old.items ++ bytes.now) }
    ensures err { OnErr result (into.new.items ≡ into.old.items) }
{
    into.extend_from_slice(bytes)?;
    Ok(())
}

/// Appends a number in decimal; where memory runs out nothing.
pub fn append_number(number: u64, into: &mut Vec<u8>) -> Result<(), NoMemory>
    ensures ok { OnOk result (into.new.items ≡ into.old.items ++ decimal number) }
    ensures err { OnErr result (into.new.items ≡ into.old.items) }
{
    append_bytes(Buffer::new().format(number).as_bytes(), into)
}

/// Appends two digits a byte; where memory runs out nothing.
fn append_tail(bytes: &[u8], into: &mut Vec<u8>) -> Result<(), NoMemory>
    ensures ok { OnOk result (into.new.items ≡ into.old.items ++ flat_map byte_hex bytes.now) }
    ensures err { OnErr result (into.new.items ≡ into.old.items) }
{
    let len = into.len();
    // A length at the limit of `usize` has no memory.
    into.resize(len.saturating_add(2 * bytes.len()), 0)?;
    write_pairs(bytes, &mut into[len..]);
    Ok(())
}

/// Appends the digits of a block of bytes. Most blocks of a frame are zeros, which are seen at once.
fn append_block(block: &[u8; BLOCK_LEN], into: &mut Vec<u8>) -> Result<(), NoMemory>
    ensures ok { OnOk result (into.new.items ≡ into.old.items ++ flat_map byte_hex block.now) }
    ensures err { OnErr result (into.new.items ≡ into.old.items) }
{
    if *block == [0; BLOCK_LEN] {
        append_bytes(&[b'0'; BLOCK_DIGITS], into)
    } else {
        append_tail(block, into)
    }
}

/// Appends two digits a byte, by blocks, or those of a front of the bytes where memory runs out.
fn append_blocks(bytes: &[u8], into: &mut Vec<u8>) -> Result<(), NoMemory>
    ensures ok { OnOk result (into.new.items ≡ into.old.items ++ flat_map byte_hex bytes.now) }
    ensures err { OnErr result (StandsInFront into.old.items into.new.items) }
{
    let mut rest = bytes;
    'chunks: while let Some((block, others)) = rest.split_first_chunk::<BLOCK_LEN>() {
        append_block(block, into)?;
        rest = others;
    }
    append_tail(rest, into)
}

/// Appends two digits a byte; where memory runs out nothing.
fn append_pairs(bytes: &[u8], into: &mut Vec<u8>) -> Result<(), NoMemory>
    ensures ok { OnOk result (into.new.items ≡ into.old.items ++ flat_map byte_hex bytes.now) }
    ensures err { OnErr result (into.new.items ≡ into.old.items) }
{
    let len = into.len();
    into.try_reserve(bytes.len().saturating_mul(2))?;
    let appended = append_blocks(bytes, into);
    if appended.is_err() {
        into.truncate(len);
    }
    appended
}

/// Appends two digits a byte, or `-` for none; where memory runs out nothing.
#[tactic(auto, unfolding(crate::specs::HexText::hex_text))]
pub fn append_hex(bytes: &[u8], into: &mut Vec<u8>) -> Result<(), NoMemory>
    ensures ok { OnOk result (into.new.items ≡ into.old.items ++ hex_text bytes.now) }
    ensures err { OnErr result (into.new.items ≡ into.old.items) }
{
    if bytes.is_empty() {
        append_bytes(b"-", into)
    } else {
        append_pairs(bytes, into)
    }
}

/// Appends a number and a dot, or a front of that where memory runs out.
#[tactic(auto, using(std::proofs::Common::append_assoc))]
fn append_dotted(number: u32, into: &mut Vec<u8>) -> Result<(), NoMemory>
    ensures ok { OnOk result (into.new.items ≡ into.old.items ++ decimal number ++ codes ".") }
    ensures err { OnErr result (StandsInFront into.old.items into.new.items) }
{
    append_number(u64::from(number), into)?;
    append_bytes(b".", into)?;
    Ok(())
}

/// Appends the dotted form of the address, or a front of it where memory runs out.
#[tactic(auto, unfolding(crate::specs::AddressText::ip4_text), using(std::proofs::Common::append_assoc))]
pub fn append_ip4(ip: Ip4, into: &mut Vec<u8>) -> Result<(), NoMemory>
    ensures ok { OnOk result (into.new.items ≡ into.old.items ++ ip4_text ip) }
    ensures err { OnErr result (StandsInFront into.old.items into.new.items) }
{
    let number = ip.number;
    append_dotted(number >> 24, into)?;
    append_dotted((number >> 16) % 256, into)?;
    append_dotted((number >> 8) % 256, into)?;
    append_number(u64::from(number % 256), into)?;
    Ok(())
}

/// Appends the address, a slash and the length, or a front of that where memory runs out.
#[tactic(auto, unfolding(crate::specs::AddressText::net4_text), using(std::proofs::Common::append_assoc))]
pub fn append_net4(net: Net4, into: &mut Vec<u8>) -> Result<(), NoMemory>
    ensures ok { OnOk result (into.new.items ≡ into.old.items ++ net4_text net) }
    ensures err { OnErr result (StandsInFront into.old.items into.new.items) }
{
    append_ip4(net.ip, into)?;
    append_bytes(b"/", into)?;
    append_number(u64::from(net.len), into)?;
    Ok(())
}

/// Appends six pairs of digits with colons between them; where memory runs out nothing.
#[tactic(auto, unfolding(crate::specs::AddressText::mac_text))]
pub fn append_mac(mac: Mac, into: &mut Vec<u8>) -> Result<(), NoMemory>
    ensures ok { OnOk result (into.new.items ≡ into.old.items ++ mac_text mac) }
    ensures err { OnErr result (into.new.items ≡ into.old.items) }
{
    let [first, second, third, fourth, fifth, sixth] = mac.bytes;
    let [a, b] = digits_of(first);
    let [c, d] = digits_of(second);
    let [e, f] = digits_of(third);
    let [g, h] = digits_of(fourth);
    let [i, j] = digits_of(fifth);
    let [k, l] = digits_of(sixth);
    let text = [
        a, b, b':', c, d, b':', e, f, b':', g, h, b':', i, j, b':', k, l,
    ];
    append_bytes(&text, into)
}
