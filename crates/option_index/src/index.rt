//! The index of a message's options, and its queries.

ghost use Rattle.std.specs.Prelude.{◌≡◌, []};
ghost use Rattle.v4_options.specs.OptionValue.{byte_of, is_present, only_byte, pieces};
ghost use Rattle.v4_options.specs.OptionViews.{view_instances};
ghost use Rattle.v4_options.specs.Numbers.{address_at, number_at};
ghost use Rattle.option_index.specs.Places.{field_bytes, value_from, Knows, StandsAt};
ghost use Rattle.option_index.specs.Queries.{IsFound};

use crate::area::{note_field, note_where};
use crate::place::{CODES, Field, Place, field_bytes};
use net_types::Ip4;
use std::marker::Model;
use v4_options::{Areas, OptionView, addr_of, pieces_of, u32_of};

/// The options of a message, with where each stands.
#[derive(Drop)]
pub struct OptionIndex<'a> {
    view: OptionView<'a>,
    places: [Place; CODES],
}

impl<'a> Model for OptionIndex<'a> {
    ghost use Rattle.std.specs.Prelude.{List, []};
    ghost use Rattle.v4_options.specs.OptionArea.{Instance};
    ghost use Rattle.v4_options.specs.OptionViews.{view_instances};
    ghost use Rattle.option_index.specs.Places.{Knows};

    ghost Value = { List Instance };

    ghost view = { λ index. view_instances index.view };

    ghost invariant = { λ index. Knows index.view.areas (view_instances index.view) [] index.places };
}

/// The value of a code as it lies in the message.
#[derive(Clone, Copy)]
pub enum Found<'a> {
    /// The code has no instance.
    Absent,
    /// The code has one instance, with this value.
    Whole(&'a [u8]),
    /// The code has several instances (RFC 3396).
    Split,
}

/// The value whose length byte stands here.
fn value_from<'a>(areas: &Areas<'a>, field: Field, at: u16) -> &'a [u8]
    requires { StandsAt (field_bytes areas.now field) at }
    ensures { result.now ≡ value_from (field_bytes areas.now field) at }
{
    let bytes = field_bytes(areas, field);
    let at = usize::from(at);
    let len = usize::from(bytes[at]);
    &bytes[at + 1..at + 1 + len]
}

/// The value of a code, by a walk over its instances.
fn walked<'a>(view: &OptionView<'a>, code: u8) -> Found<'a>
    ensures { IsFound (pieces code (view_instances view.now)) result }
{
    let mut pieces = pieces_of(view, code);
    let Some(first) = pieces.next() else {
        return Found::Absent;
    };
    if pieces.next().is_some() {
        return Found::Split;
    }
    Found::Whole(first)
}

/// Where the options of the view stand, in the order options, file, sname.
fn places_of(view: &OptionView) -> [Place; CODES]
    ensures { Knows view.now.areas (view_instances view.now) [] result }
{
    let mut places = [Place::Nowhere; CODES];
    note_field(&mut places, &view.areas, Field::Options);
    note_where(
        view.overload.reads_file(),
        &mut places,
        &view.areas,
        Field::File,
    );
    note_where(
        view.overload.reads_sname(),
        &mut places,
        &view.areas,
        Field::Sname,
    );
    places
}

impl<'a> OptionIndex<'a> {
    /// The index of a view's options. It is made by one pass over the areas that are read, and takes no memory.
    pub fn of(view: &OptionView<'a>) -> OptionIndex<'a>
        ensures { result ≡ view_instances view.now }
    {
        OptionIndex {
            view: *view,
            places: places_of(view),
        }
    }

    /// The value of a code as it lies in the message.
    pub fn value_at(&self, code: u8) -> Found<'a>
        ensures { IsFound (pieces code self.now) result }
    {
        match self.places[usize::from(code)] {
            Place::Nowhere => Found::Absent,
            Place::At { field, at } => Found::Whole(value_from(&self.view.areas, field, at)),
            Place::Unkept => walked(&self.view, code),
        }
    }

    /// Whether a code has an instance.
    pub fn present(&self, code: u8) -> bool
        ensures { result ≡ is_present code self.now }
    {
        match self.value_at(code) {
            Found::Absent => false,
            Found::Whole(_) | Found::Split => true,
        }
    }

    /// The byte of a code's value, where that is one byte.
    pub fn byte_at(&self, code: u8) -> Option<u8>
        ensures { result ≡ byte_of code self.now }
    {
        match self.value_at(code) {
            Found::Absent => None,
            Found::Whole(value) => only_byte(value),
            Found::Split => v4_options::byte_at(&self.view, code),
        }
    }

    /// The number that a code's value is. None unless it has 4 bytes.
    pub fn u32_at(&self, code: u8) -> Option<u32>
        ensures { result ≡ number_at code self.now }
    {
        match self.value_at(code) {
            Found::Absent => None,
            Found::Whole(value) => u32_of(value),
            Found::Split => v4_options::u32_at(&self.view, code),
        }
    }

    /// The address that a code's value is. None unless it has 4 bytes.
    pub fn addr_at(&self, code: u8) -> Option<Ip4>
        ensures { result ≡ address_at code self.now }
    {
        match self.value_at(code) {
            Found::Absent => None,
            Found::Whole(value) => addr_of(value),
            Found::Split => v4_options::addr_at(&self.view, code),
        }
    }
}

/// The byte of a value that has one byte.
fn only_byte(value: &[u8]) -> Option<u8>
    ensures { result ≡ only_byte value.now }
{
    match value {
        [byte] => Some(*byte),
        _ => None,
    }
}
