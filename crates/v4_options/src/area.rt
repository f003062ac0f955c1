//! One area of options, from its front to its end.

ghost use Rattle.std.specs.Prelude.{◌≡◌, ◌+◌, ◌^◌, ◌<◌, ℕ, [], ◌∷◌, length, Some, None, MatchOption, IfOk, IfErr};
ghost use Rattle.v4_options.specs.OptionArea.{front_of, instances_in, malformed_in};
ghost use Rattle.v4_options.specs.OptionValue.{pieces_in};
ghost use Rattle.v4_options.specs.Overload.{overload_by, overload_in};
ghost use Rattle.v4_options.specs.AreaSteps.{InstancesBy, LiesIn, MalformedBy, OverloadBy};

use crate::code;
use crate::overload::{BOTH, FILE, Overload, SNAME};
use crate::view::Malformed;

/// What stands at the front of an area (RFC 2132, section 2).
#[derive(Clone, Copy)]
pub enum Front {
    /// A byte of padding.
    Pad,
    /// The end of the area: its last byte is passed, or the end option stands here.
    End,
    /// An option that the end of the area cuts: without its length byte, or with fewer bytes than that says.
    Cut,
    /// An option with a value of so many bytes.
    Whole(usize),
}

/// What stands at the front of an area (RFC 2132, section 2), for a reader that keeps its own place in it.
#[tactic(auto, unfolding(crate::specs::OptionArea::front_of))]
pub fn front_at(area: &[u8]) -> Front
    ensures exact { front_of area.now ≡ result }
    ensures room { LiesIn area.now result }
{
    if area.is_empty() {
        return Front::End;
    }
    if area[0] == code::PAD {
        return Front::Pad;
    }
    if area[0] == code::END {
        return Front::End;
    }
    if area.len() < 2 {
        return Front::Cut;
    }
    let len = area[1] as usize;
    if area.len() - 2 < len {
        return Front::Cut;
    }
    Front::Whole(len)
}

/// What stands at the front of an area, and what that says of the area's instances.
pub(crate) fn read_front(area: &[u8]) -> Front
    ensures instances { InstancesBy area.now result }
    ensures malformed { (at : ℕ) → MalformedBy at area.now result }
    ensures overload { OverloadBy area.now result }
    ensures room { LiesIn area.now result }
{
    front_at(area)
}

/// The first instance of an area, as its code and its value, and the area after it.
pub(crate) fn split_option(area: &[u8]) -> Option<(u8, &[u8], &[u8])>
    ensures { MatchOption result (instances_in area.now ≡ [])
        (λ x. instances_in area.now ≡ (x.0, x.1.now) ∷ instances_in x.2.now) }
{
    let mut rest = area;
    'options: loop {
        match read_front(rest) {
            Front::Pad => rest = &rest[1..],
            Front::End => return None,
            Front::Cut => return None,
            Front::Whole(len) => {
                let (value, others) = rest[2..].split_at(len);
                return Some((rest[0], value, others));
            }
        }
    }
}

/// The value of an area's first instance of a code, and the area after it.
pub(crate) fn find_option(area: &[u8], code: u8) -> Option<(&[u8], &[u8])>
    ensures { MatchOption result (pieces_in code area.now ≡ [])
        (λ x. pieces_in code area.now ≡ x.0.now ∷ pieces_in code x.1.now) }
{
    let mut rest = area;
    'instances: while let Some((found, value, others)) = split_option(rest) {
        if found == code {
            return Some((value, others));
        }
        rest = others;
    }
    None
}

/// What the value of an option 52 says of the other areas.
fn overload_of(value: &[u8]) -> Overload
    ensures { result ≡ overload_by value.now }
{
    match value {
        [FILE] => Overload::File,
        [SNAME] => Overload::Sname,
        [BOTH] => Overload::Both,
        _ => Overload::Neither,
    }
}

/// The overload that an area tells by its first option 52. The area begins at `begins`, which counts in
/// the place of a malformed option.
pub(crate) fn check_area(area: &[u8], begins: usize) -> Result<Overload, Malformed>
    requires { begins + length area.now < 2 ^ 64 }
    ensures whole { IfOk result
        (λ overload. (malformed_in begins area.now ≡ None) × (overload ≡ overload_in area.now)) }
    ensures malformed { IfErr result (λ m. malformed_in begins area.now ≡ Some m.place) }
{
    let mut rest = area;
    let mut at = begins;
    let mut overload = None;
    'options: loop {
        match read_front(rest) {
            Front::Pad => {
                rest = &rest[1..];
                at += 1;
            }
            Front::End => return Ok(overload.unwrap_or(Overload::Neither)),
            Front::Cut => return Err(Malformed { place: at }),
            Front::Whole(len) => {
                let (value, others) = rest[2..].split_at(len);
                if rest[0] == code::OVERLOAD && overload.is_none() {
                    overload = Some(overload_of(value));
                }
                rest = others;
                at += 2 + len;
            }
        }
    }
}
