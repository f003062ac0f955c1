//! Options at each depth: an IA holds options, and so do its addresses and prefixes (RFC 8415, section 21).

ghost use Rattle.std.specs.Prelude.{◌≡◌, ◌+◌, ◌^◌, ◌<◌, ◌≤◌, ◌-◌, length, Some, None, IfOk, IfErr, MatchOption, IfSome, true};
ghost use Rattle.v6_options.specs.OptionArea.{field, has_form};
ghost use Rattle.v6_options.specs.Nesting.{fields_len, malformed_in};
ghost use Rattle.v6_options.specs.AreaSteps.{HasRoom, IsWhole, IsBadAt, held_in, malformed_from, malformed_past};
ghost use Rattle.v6_options.specs.declared.area.Front.TheVariants.{Whole};

use crate::area::{Front, after_header, field_at, read_front};
use crate::code;
use crate::layout::{ADDRESS_FIELDS_LEN, HEADER_LEN, IA_FIELDS_LEN, PREFIX_FIELDS_LEN};

/// The first option that runs past what holds it, has no room for its fixed fields or a prefix of more than 128 bits.
#[derive(Clone, Copy, Debug, PartialEq, Eq)]
pub struct Malformed {
    pub place: usize,
}

/// What is left to judge: options in the order of their places, those that an option holds right after it. `broken`
/// stands behind them, where an option is known to break the rule.
#[derive(Clone, Copy)]
pub struct Cursor<'a> {
    rest: &'a [u8],
    at: usize,
    broken: Option<usize>,
}

/// How many bytes of fixed fields stand before the options that an option of this code holds.
pub(crate) fn fields_len(code: u16) -> Option<usize>
    ensures { result ≡ fields_len code }
{
    match code {
        code::IA_NA | code::IA_PD => Some(IA_FIELDS_LEN),
        code::IA_ADDRESS => Some(ADDRESS_FIELDS_LEN),
        code::IA_PREFIX => Some(PREFIX_FIELDS_LEN),
        _ => None,
    }
}

/// The place of the first option of an area that breaks the rule, where what the options hold isn't looked at.
fn first_bad(area: &[u8]) -> Option<usize>
    ensures { MatchOption result (IsWhole area.now) (λ place. IsBadAt area.now place) }
{
    let mut rest = area;
    let mut at = 0;
    'options: loop {
        match read_front(rest) {
            Front::End => return None,
            Front::Bad => return Some(at),
            Front::Whole(_, len) => {
                rest = after_header(rest, len);
                at += HEADER_LEN + len;
            }
        }
    }
}

/// The options that the value of an area's first option holds after so many bytes of fixed fields.
fn held_in(area: &[u8], fields: usize, len: usize) -> &[u8]
    requires fields { fields ≤ len }
    requires room { len + 4 ≤ length area.now }
    ensures { result.now ≡ held_in fields len area.now }
{
    let (_, held) = field_at(area, HEADER_LEN, len).split_at(fields);
    held
}

/// Enters an option with so many bytes of fixed fields and a value of so many bytes. Where an option that it holds
/// breaks the rule, what comes before that is left.
fn enter(cursor: Cursor<'_>, fields: usize, len: usize) -> Cursor<'_>
    requires fields { fields ≤ len }
    requires room { len + 4 ≤ length cursor.rest.now }
    requires place { cursor.at + length cursor.rest.now < 2 ^ 64 }
    ensures judged { malformed_from result ≡ malformed_past cursor.entry (Some fields) len }
    ensures shorter { length result.rest.now < length cursor.entry.rest.now }
    ensures place { result.at + length result.rest.now ≤ cursor.entry.at + length cursor.entry.rest.now }
{
    let held = held_in(cursor.rest, fields, len);
    let at = cursor.at + HEADER_LEN + fields;
    match first_bad(held) {
        None => Cursor {
            rest: after_header(cursor.rest, fields),
            at,
            broken: cursor.broken,
        },
        Some(place) => {
            let (before, _) = held.split_at(place);
            Cursor {
                rest: before,
                at,
                broken: Some(at + place),
            }
        }
    }
}

/// Passes the option at the front, whose code and length these are.
fn pass(cursor: Cursor<'_>, code: u16, len: usize) -> Cursor<'_>
    requires room { HasRoom cursor.rest.now (Whole code len) }
    requires place { cursor.at + length cursor.rest.now < 2 ^ 64 }
    ensures judged { malformed_from result ≡ malformed_past cursor.entry (fields_len code) len }
    ensures shorter { length result.rest.now < length cursor.entry.rest.now }
    ensures place { result.at + length result.rest.now ≤ cursor.entry.at + length cursor.entry.rest.now }
{
    match fields_len(code) {
        Some(fields) => enter(cursor, fields, len),
        None => Cursor {
            rest: after_header(cursor.rest, len),
            at: cursor.at + HEADER_LEN + len,
            broken: cursor.broken,
        },
    }
}

/// Whether each option of an area keeps the rule, at any depth: it ends within what holds it and has room for its fixed
/// fields. The area begins at `begins`, which counts in the place of the first that doesn't; an option goes before
/// those that it holds.
pub fn check_options(area: &[u8], begins: usize) -> Result<(), Malformed>
    requires { begins + length area.now < 2 ^ 64 }
    ensures whole { IfOk result (λ _. malformed_in begins area.now ≡ None) }
    ensures malformed { IfErr result (λ m. malformed_in begins area.now ≡ Some m.place) }
{
    let mut cursor = Cursor {
        rest: area,
        at: begins,
        broken: None,
    };
    'options: loop {
        match read_front(cursor.rest) {
            Front::End => {
                return match cursor.broken {
                    Some(place) => Err(Malformed { place }),
                    None => Ok(()),
                };
            }
            Front::Bad => return Err(Malformed { place: cursor.at }),
            Front::Whole(code, len) => cursor = pass(cursor, code, len),
        }
    }
}
