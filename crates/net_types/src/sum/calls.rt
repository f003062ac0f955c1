//! Computing and checking the Internet checksum of bytes that come in pieces (RFC 1071).

ghost use Rattle.std.specs.Prelude.{◌≡◌, ℕ, ◌%◌, ◌≤◌, ◌++◌, ◌==◌, false, length, List, []};
ghost use Rattle.net_types.specs.Sum.{IsSumOf, checksum};
ghost use Rattle.net_types.specs.Sum as words;

use crate::sum::Sum;
use byteorder::{BigEndian, ByteOrder};

/// All bits of a word.
const ALL_ONES: u32 = 0xffff;
/// As many bytes have words whose plain sum fits 32 bits.
const BLOCK_LEN: usize = 0x1_0000;

/// The sum of no bytes.
pub fn sum_new() -> Sum
    ensures { IsSumOf result [] }
{
    Sum {
        total: 0,
        odd: false,
    }
}

/// Adds a piece, which goes on where the one before ended, within a word too.
pub fn sum_add(sum: &mut Sum, piece: &[u8])
    ensures { (bytes : List ℕ) → IsSumOf sum.old bytes → IsSumOf sum.new (bytes ++ piece.now) }
{
    if !sum.odd {
        add_words(sum, piece);
    } else if let Some((low, rest)) = piece.split_first() {
        sum.total = ones_add(sum.total, u32::from(*low));
        sum.odd = false;
        add_words(sum, rest);
    }
}

/// The checksum of the pieces laid end to end.
pub fn sum_value(sum: &Sum) -> u16
    ensures { (bytes : List ℕ) → IsSumOf sum.now bytes → result ≡ checksum bytes }
{
    (ALL_ONES - sum.total) as u16
}

/// Whether the sum has all bits set, as it has where the pieces hold their right checksum.
pub fn sum_is_right(sum: &Sum) -> bool
    ensures { (bytes : List ℕ) → IsSumOf sum.now bytes → result ≡ (words.ones_sum bytes == 65535) }
{
    sum.total == ALL_ONES
}

/// Adds a piece that begins with a word.
fn add_words(sum: &mut Sum, piece: &[u8])
    ensures total { sum.new.total ≡ words.ones_add sum.old.total (words.ones_sum piece.now) }
    ensures odd { sum.new.odd ≡ (length piece.now % 2 == 1) }
{
    sum.total = ones_add(sum.total, words_of(piece));
    sum.odd = piece.len() % 2 == 1;
}

/// The one's complement sum of a piece.
fn words_of(piece: &[u8]) -> u32
    ensures word { result ≤ 65535 }
    ensures sum { result ≡ words.ones_sum piece.now }
{
    let mut total = 0;
    let mut rest = piece;
    'whole: while rest.len() > BLOCK_LEN {
        let (block, after) = rest.split_at(BLOCK_LEN);
        total = ones_add(total, block_of(block));
        rest = after;
    }
    ones_add(total, block_of(rest))
}

/// The one's complement sum of a block.
fn block_of(block: &[u8]) -> u32
    requires { length block.now ≤ 65536 }
    ensures word { result ≤ 65535 }
    ensures sum { result ≡ words.ones_sum block.now }
{
    folded(plain_of(block))
}

/// The plain sum of the words of a block.
#[tactic(auto, using(crate::proofs::Checksum::last_half))]
fn plain_of(block: &[u8]) -> u32
    requires { length block.now ≤ 65536 }
    ensures { result ≡ words.plain_sum block.now }
{
    let mut total = 0;
    'words: for i in 0..block.len() / 2 {
        total += u32::from(BigEndian::read_u16(&block[2 * i..]));
    }
    if block.len() % 2 == 1 {
        total += u32::from(BigEndian::read_u16(&[block[block.len() - 1], 0]));
    }
    total
}

/// The word that a plain sum is in one's complement: the carries come back in, twice at most.
fn folded(wide: u32) -> u32
    ensures word { result ≤ 65535 }
    ensures sum { result ≡ words.ones_fold wide }
{
    let once = wide % 0x1_0000 + wide / 0x1_0000;
    once % 0x1_0000 + once / 0x1_0000
}

/// The one's complement sum of two words.
fn ones_add(a: u32, b: u32) -> u32
    requires left { a ≤ 65535 }
    requires right { b ≤ 65535 }
    ensures word { result ≤ 65535 }
    ensures sum { result ≡ words.ones_add a b }
{
    let sum = a + b;
    if sum <= ALL_ONES { sum } else { sum - ALL_ONES }
}
