//! One area of options: what stands at its front.

ghost use Rattle.std.specs.Prelude.{◌≡◌, ◌+◌, ◌≤◌, ◌<◌, ℕ, length, drop};
ghost use Rattle.v6_options.specs.OptionArea.{field, front_of, has_form, word_in};
ghost use Rattle.v6_options.specs.AreaSteps.{HasRoom, InstancesBy, MalformedBy};

use crate::code;
use crate::layout::{
    ADDRESS_BITS, ADDRESS_FIELDS_LEN, HEADER_LEN, IA_FIELDS_LEN, PREFIX_FIELDS_LEN,
    STATUS_FIELDS_LEN,
};
use byteorder::{BigEndian, ByteOrder};

/// Where a prefix's length in bits stands (RFC 8415, section 21.22).
pub(crate) const PREFIX_LEN: usize = 8;

/// What stands at the front of an area (RFC 8415, section 21.1).
#[derive(Clone, Copy)]
pub enum Front {
    /// Nothing: the area's end.
    End,
    /// An option that runs past the area, has no room for its fixed fields or a prefix of more than 128 bits.
    Bad,
    /// An option of this code with a value of so many bytes.
    Whole(u16, usize),
}

/// The bytes of a field.
pub(crate) fn field_at(bytes: &[u8], at: usize, len: usize) -> &[u8]
    requires { at + len ≤ length bytes.now }
    ensures value { result.now ≡ field at len bytes.now }
    ensures len { length result.now ≡ len }
{
    let (_, after) = bytes.split_at(at);
    let (field, _) = after.split_at(len);
    field
}

/// What follows so many bytes after a header.
pub(crate) fn after_header(area: &[u8], len: usize) -> &[u8]
    requires { len + 4 ≤ length area.now }
    ensures { result.now ≡ drop len (drop 4 area.now) }
{
    let (_, after) = area[HEADER_LEN..].split_at(len);
    after
}

/// The two bytes at `at` as a number.
pub(crate) fn word_at(bytes: &[u8], at: usize) -> u16
    requires { at + 2 ≤ length bytes.now }
    ensures { result ≡ word_in at bytes.now }
{
    BigEndian::read_u16(&bytes[at..])
}

/// Whether a value has room for the fixed fields of its option.
fn has_form(code: u16, value: &[u8]) -> bool
    ensures { result ≡ has_form code value.now }
{
    match code {
        code::IA_NA | code::IA_PD => value.len() >= IA_FIELDS_LEN,
        code::IA_ADDRESS => value.len() >= ADDRESS_FIELDS_LEN,
        code::IA_PREFIX => value.len() >= PREFIX_FIELDS_LEN && value[PREFIX_LEN] <= ADDRESS_BITS,
        code::STATUS_CODE => value.len() >= STATUS_FIELDS_LEN,
        _ => true,
    }
}

#[tactic(auto, unfolding(crate::specs::OptionArea::front_of))]
fn front_at(area: &[u8]) -> Front
    ensures exact { front_of area.now ≡ result }
    ensures room { HasRoom area.now result }
{
    if area.is_empty() {
        return Front::End;
    }
    if area.len() < HEADER_LEN {
        return Front::Bad;
    }
    let code = word_at(area, 0);
    let len = word_at(area, 2) as usize;
    if area.len() - HEADER_LEN < len {
        return Front::Bad;
    }
    if has_form(code, field_at(area, HEADER_LEN, len)) {
        return Front::Whole(code, len);
    }
    Front::Bad
}

/// What stands at the front of an area, and what that says of the options in it.
pub(crate) fn read_front(area: &[u8]) -> Front
    ensures exact { front_of area.now ≡ result }
    ensures instances { InstancesBy area.now result }
    ensures malformed { (at : ℕ) → MalformedBy at area.now result }
    ensures room { HasRoom area.now result }
{
    front_at(area)
}
