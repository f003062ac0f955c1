//! Where the value of a code stands.

ghost use Rattle.std.specs.Prelude.{◌≡◌, slice_index_or, slice_set};
ghost use Rattle.option_index.specs.Places.{field_bytes, noted, place_at};
ghost use Rattle.option_index.specs.declared.place.Place.TheVariants.{Nowhere};

use v4_options::Areas;

/// A field of a message that can hold options (RFC 2131, section 2).
#[derive(Clone, Copy)]
pub enum Field {
    Options,
    File,
    Sname,
}

/// Where the value of a code stands.
#[derive(Clone, Copy)]
pub enum Place {
    /// The code has no instance.
    Nowhere,
    /// The code has one instance, whose length byte stands here.
    At { field: Field, at: u16 },
    /// It isn't kept: the code has several instances (RFC 3396), or one that stands too far behind.
    Unkept,
}

/// How many codes there are.
pub(crate) const CODES: usize = 256;

/// The bytes of a field.
pub(crate) fn field_bytes<'a>(areas: &Areas<'a>, field: Field) -> &'a [u8]
    ensures { result.now ≡ field_bytes areas.now field }
{
    match field {
        Field::Options => areas.options,
        Field::File => areas.file,
        Field::Sname => areas.sname,
    }
}

/// The place of an option whose length byte stands here.
pub(crate) fn place_at(field: Field, at: usize) -> Place
    ensures { result ≡ place_at field at }
{
    match u16::try_from(at) {
        Ok(at) => Place::At { field, at },
        Err(_) => Place::Unkept,
    }
}

/// Notes one more instance of a code.
pub(crate) fn note(places: &mut [Place; CODES], code: u8, place: Place)
    ensures { places.new ≡ slice_set places.old code (noted (slice_index_or places.old code Nowhere) place) }
{
    let index = usize::from(code);
    places[index] = match places[index] {
        Place::Nowhere => place,
        Place::At { .. } | Place::Unkept => Place::Unkept,
    };
}
