//! Compressed names (RFC 1035, section 4.1.4).

ghost use Rattle.std.specs.Prelude.{◌≡◌, ◌+◌, ◌<◌, ◌≤◌, slice_index, length, take, drop, OnErr, OnOk, MatchOption};
ghost use Rattle.domain_names.specs.CompressedName.{label_piece, pointer_piece, piece_of, IsNameAt, NoNameAt};
ghost use Rattle.domain_names.specs.CompressedSteps.{HasRoom, with_label};

use crate::label::{DOT, NAME_MAX, is_label};
use arrayvec::{ArrayVec, CapacityError};
use byteorder::{BigEndian, ByteOrder};

/// The bytes of a name as a text, of which there are no more than these.
pub(crate) type NameBytes = ArrayVec<u8, NAME_MAX>;

/// From this byte on a byte is no length of a label (RFC 1035, section 3.1).
const LABEL_LIMIT: u8 = 64;
/// From this byte on a byte begins a pointer.
const POINTER: u8 = 192;
/// The two high bits of a pointer, which lie before the place.
const POINTER_BITS: u16 = 0xc000;

/// What stands at a place of a value.
#[derive(Clone, Copy)]
pub enum Piece {
    /// The zero byte that ends a name.
    End,
    /// A label of so many bytes after its length byte.
    Label(usize),
    /// A pointer to an earlier place.
    Pointer(usize),
    /// None of these, or what runs past the value.
    Bad,
}

/// The label whose length byte stands at `at`.
fn label_piece(value: &[u8], at: usize) -> Piece
    requires { at < length value.now }
    ensures exact { label_piece value.now at (slice_index value.now at) ≡ result }
    ensures room { HasRoom value.now 0 at result }
{
    let len = value[at] as usize;
    if value.len() - at - 1 < len {
        return Piece::Bad;
    }
    Piece::Label(len)
}

/// The pointer at `at`, where it leads below `start`.
fn pointer_piece(value: &[u8], start: usize, at: usize) -> Piece
    requires room { at < length value.now }
    requires high { 192 ≤ slice_index value.now at }
    ensures exact { pointer_piece value.now start at ≡ result }
    ensures room { HasRoom value.now start at result }
{
    if value.len() - at < 2 {
        return Piece::Bad;
    }
    let target = usize::from(BigEndian::read_u16(&value[at..]) - POINTER_BITS);
    if target >= start {
        return Piece::Bad;
    }
    Piece::Pointer(target)
}

/// What stands at `at`, in a part that begins at `start`.
#[tactic(auto, unfolding(crate::specs::CompressedName::piece_of))]
fn piece_at(value: &[u8], start: usize, at: usize) -> Piece
    ensures exact { piece_of value.now start at ≡ result }
    ensures room { HasRoom value.now start at result }
{
    if value.len() <= at {
        return Piece::Bad;
    }
    let first = value[at];
    if first == 0 {
        return Piece::End;
    }
    if first < LABEL_LIMIT {
        return label_piece(value, at);
    }
    if first < POINTER {
        return Piece::Bad;
    }
    pointer_piece(value, start, at)
}

fn label_at(value: &[u8], at: usize, len: usize) -> &[u8]
    requires { at + 1 + len ≤ length value.now }
    ensures { result.now ≡ take len (drop (at + 1) value.now) }
{
    let (_, after) = value.split_at(at + 1);
    let (label, _) = after.split_at(len);
    label
}

/// Puts a label after a name, and a dot between them. An error where the name would be too long.
fn add_label(name: &mut NameBytes, label: &[u8]) -> Result<(), CapacityError>
    ensures added { OnOk result (name.new.items ≡ with_label name.old.items label.now) }
    ensures short { OnOk result (length (with_label name.old.items label.now) ≤ 253) }
    ensures long { OnErr result (253 < length (with_label name.old.items label.now)) }
{
    if !name.is_empty() {
        name.try_extend_from_slice(&[DOT])?;
    }
    name.try_extend_from_slice(label)
}

/// The name that begins at `from`, and where what follows it begins.
pub(crate) fn read_name(value: &[u8], from: usize) -> Option<(NameBytes, usize)>
    ensures { MatchOption result (NoNameAt value.now from) (λ x. IsNameAt value.now from x.0.items x.1) }
{
    let mut name = NameBytes::new();
    let mut start = from;
    let mut at = from;
    let mut after = None;
    'pieces: loop {
        match piece_at(value, start, at) {
            Piece::Bad => return None,
            Piece::Label(len) => {
                let label = label_at(value, at, len);
                if !is_label(label) {
                    return None;
                }
                match add_label(&mut name, label) {
                    Ok(()) => at = at + 1 + len,
                    Err(_) => return None,
                }
            }
            Piece::Pointer(target) => {
                after = Some(after.unwrap_or(at + 2));
                start = target;
                at = target;
            }
            Piece::End => {
                if name.is_empty() {
                    return None;
                }
                return Some((name, after.unwrap_or(at + 1)));
            }
        }
    }
}
