//! The pass over one area of options.

ghost use Rattle.std.specs.Prelude.{◌≡◌, ◌≤◌, [], drop, length, if◌then◌else◌};
ghost use Rattle.v4_options.specs.OptionArea.{instances_in};
ghost use Rattle.option_index.specs.Places.{field_bytes, Notes, PassBy};

use crate::place::{CODES, Field, Place, field_bytes, note, place_at};
use v4_options::{Areas, Front, front_at};

/// What stands at a place of an area.
fn front_from(area: &[u8], at: usize) -> Front
    requires { at ≤ length area.now }
    ensures { PassBy area.now at result }
{
    front_at(rest_from(area, at))
}

/// The area from a place on.
fn rest_from(area: &[u8], at: usize) -> &[u8]
    requires { at ≤ length area.now }
    ensures { result.now ≡ drop at area.now }
{
    &area[at..]
}

/// Notes the instances of a field.
pub(crate) fn note_field(places: &mut [Place; CODES], areas: &Areas, field: Field)
    ensures { Notes areas.now (instances_in (field_bytes areas.now field)) places.old places.new }
{
    let area = field_bytes(areas, field);
    let mut at = 0;
    'options: loop {
        match front_from(area, at) {
            Front::Pad => at += 1,
            Front::End | Front::Cut => return,
            Front::Whole(len) => {
                note(places, area[at], place_at(field, at + 1));
                at += 2 + len;
            }
        }
    }
}

/// Notes the instances of a field, where it is read.
pub(crate) fn note_where(is_read: bool, places: &mut [Place; CODES], areas: &Areas, field: Field)
    ensures { Notes areas.now
        (if is_read then instances_in (field_bytes areas.now field) else []) places.old places.new }
{
    if is_read {
        note_field(places, areas, field);
    }
}
