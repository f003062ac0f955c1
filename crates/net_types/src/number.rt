//! Decimal numbers.
ghost use Rattle.std.specs.Prelude.{◌≡◌, ◌^◌, ◌<◌, ◌≤◌, IfSome, length};
ghost use Rattle.std.specs.Char.{is_ascii_digit};
ghost use Rattle.std.specs.List.{list_all};
ghost use Rattle.net_types.specs.Numbers.{is_numeral, number_at};

use std::str;

const MOST_DIGITS: usize = 20;

fn are_digits(bytes: &[u8]) -> bool
    ensures { result ≡ list_all is_ascii_digit bytes.now }
{
    bytes.iter().all(|byte| byte.is_ascii_digit())
}

#[tactic(auto, unfolding(crate::specs::Numbers::is_numeral))]
fn is_numeral(digits: &[u8]) -> bool
    ensures { result ≡ is_numeral digits.now }
{
    if digits.is_empty() {
        false
    } else if digits[0] == b'0' {
        digits.len() == 1
    } else {
        digits.len() <= MOST_DIGITS && are_digits(digits)
    }
}

/// The number that the text spells in decimal, without leading zeros or sign.
pub fn u64_of(bytes: &[u8]) -> Option<u64>
    ensures { result ≡ number_at (2 ^ 64) bytes.now }
{
    if !is_numeral(bytes) {
        return None;
    }
    match str::from_utf8(bytes) {
        Ok(digits) => digits.parse().ok(),
        Err(_) => None,
    }
}

/// The number below the limit that the text spells.
pub fn number_of(bytes: &[u8], limit: u64) -> Option<u64>
    ensures value { result ≡ number_at limit bytes.now }
    ensures below { IfSome result (λ n. n < limit) }
{
    let number = u64_of(bytes)?;
    if number < limit { Some(number) } else { None }
}

/// The number below the limit that the text spells, where the limit is at most 256.
pub fn u8_of(bytes: &[u8], limit: u64) -> Option<u8>
    requires { limit ≤ 256 }
    ensures { result ≡ number_at limit bytes.now }
{
    match number_of(bytes, limit) {
        Some(number) => Some(number as u8),
        None => None,
    }
}
