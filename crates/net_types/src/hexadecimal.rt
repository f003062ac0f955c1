//! Bytes as pairs of lower-case hexadecimal digits.
ghost use Rattle.std.specs.Prelude.{◌≡◌, ◌*◌, ◌/◌, ◌<◌, ◌++◌, ◌==◌, flat_map, length, option_map};
ghost use Rattle.std.specs.Prelude.{if◌then◌else◌, IfOk, None, Some};
ghost use Rattle.net_types.specs.HexText.{byte_hex, hex_at, hex_byte_at, lacks_capitals, pairs_at};

use crate::fault::NoMemory;
use hex::FromHex;
use std::alloc::Global;

/// How many bytes are read and written at once.
pub(crate) const BLOCK_LEN: usize = 16;
/// How many digits they have.
pub(crate) const BLOCK_DIGITS: usize = 2 * BLOCK_LEN;

/// Whether no byte is a capital letter. Without a branch, so that many are asked at once.
fn lacks_capitals(text: &[u8]) -> bool
    ensures { result ≡ lacks_capitals text.now }
{
    let mut good = true;
    'bytes: for i in 0..text.len() {
        good &= !text[i].is_ascii_uppercase();
    }
    good
}

/// The byte that two lower-case digits spell.
#[tactic(auto, using(crate::proofs::HexLaws::byte_decoded, crate::proofs::HexLaws::capital_byte))]
pub fn hex_byte_of(bytes: &[u8]) -> Option<u8>
    ensures { result ≡ hex_byte_at bytes.now }
{
    if !lacks_capitals(bytes) {
        return None;
    }
    let [byte] = <[u8; 1]>::from_hex(bytes).ok()?;
    Some(byte)
}

/// The bytes that a block of digits spells. Most blocks of a frame are zeros, which are seen at once.
#[tactic(auto, using(crate::proofs::HexBlocks::block_steps))]
fn block_of(block: &[u8; BLOCK_DIGITS]) -> Option<[u8; BLOCK_LEN]>
    ensures { result ≡ pairs_at block.now }
{
    if *block == [b'0'; BLOCK_DIGITS] {
        return Some([0; BLOCK_LEN]);
    }
    if !lacks_capitals(block) {
        return None;
    }
    <[u8; BLOCK_LEN]>::from_hex(block.as_slice()).ok()
}

/// Reads pairs up to the end into room of their length; false where they spell no bytes.
#[tactic(auto, using(crate::proofs::HexLaws::capital_pairs))]
fn read_pairs(pairs: &[u8], bytes: &mut [u8]) -> bool
    requires { length bytes.old ≡ length pairs.now / 2 }
    ensures { pairs_at pairs.now ≡ (if result then Some bytes.new else None) }
{
    if !lacks_capitals(pairs) {
        return false;
    }
    match hex::decode_to_slice(pairs, bytes) {
        Ok(()) => true,
        Err(_) => false,
    }
}

/// Appends the bytes that fewer digits than a block's spell; false where they spell none.
#[tactic(auto, using(crate::proofs::HexBlocks::appended_some, crate::proofs::HexBlocks::appended_none))]
fn append_tail(digits: &[u8], bytes: &mut Vec<u8>) -> Result<bool, NoMemory>
    requires { length digits.now < 32 }
    ensures { IfOk result (λ good. option_map (λ more. bytes.old.items ++ more) (pairs_at digits.now)
        ≡ (if good then Some bytes.new.items else None)) }
{
    let mut room = [0; BLOCK_LEN];
    let tail = &mut room[..digits.len() / 2];
    if !read_pairs(digits, tail) {
        return Ok(false);
    }
    bytes.extend_from_slice(tail)?;
    Ok(true)
}

/// The bytes that pairs up to the end spell.
fn pairs_of(alloc: Global, pairs: &[u8]) -> Result<Option<Vec<u8>>, NoMemory>
    ensures { IfOk result (λ o. option_map (λ v. v.items) o ≡ pairs_at pairs.now) }
{
    let mut bytes = Vec::with_capacity(alloc, pairs.len() / 2)?;
    let mut rest = pairs;
    'chunks: while let Some((block, others)) = rest.split_first_chunk::<BLOCK_DIGITS>() {
        let Some(more) = block_of(block) else {
            return Ok(None);
        };
        bytes.extend_from_slice(&more)?;
        rest = others;
    }
    if append_tail(rest, &mut bytes)? {
        Ok(Some(bytes))
    } else {
        Ok(None)
    }
}

/// The bytes that lower-case pairs spell, or no bytes for `-`.
#[tactic(auto, unfolding(crate::specs::HexText::hex_at))]
pub fn hex_of(alloc: Global, bytes: &[u8]) -> Result<Option<Vec<u8>>, NoMemory>
    ensures { IfOk result (λ o. option_map (λ v. v.items) o ≡ hex_at bytes.now) }
{
    if bytes.is_empty() {
        Ok(None)
    } else if bytes == b"-".as_slice() {
        Ok(Some(Vec::new(alloc)))
    } else {
        pairs_of(alloc, bytes)
    }
}

/// Writes two digits a byte over all of the pairs.
#[tactic(auto, using(crate::proofs::HexLaws::encoded))]
pub(crate) fn write_pairs(bytes: &[u8], pairs: &mut [u8])
    requires { length pairs.old ≡ 2 * length bytes.now }
    ensures { pairs.new ≡ flat_map byte_hex bytes.now }
{
    match hex::encode_to_slice(bytes, pairs) {
        Ok(()) => (),
        Err(_) => unreachable!(),
    }
}

/// The two digits of a byte.
pub(crate) fn digits_of(byte: u8) -> [u8; 2]
    ensures { result ≡ byte_hex byte }
{
    let mut digits = [0; 2];
    write_pairs(&[byte], &mut digits);
    digits
}
