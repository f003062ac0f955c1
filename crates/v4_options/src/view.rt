//! The areas of a message, and the view of their options once each is known to be well formed.

ghost use Rattle.std.specs.Prelude.{◌≡◌, ◌+◌, ◌^◌, ◌<◌, ◌↔◌, length, Some, None, IfOk, IfErr, IsTrue};
ghost use Rattle.v4_options.specs.Overload.{overload_in};
ghost use Rattle.v4_options.specs.OptionViews.{area_bytes, malformed_of};

use crate::area::check_area;
use crate::overload::Overload;

/// The three fields of a message that can hold options (RFC 2131, section 2).
#[derive(Clone, Copy)]
pub struct Areas<'a> {
    pub options: &'a [u8],
    pub file: &'a [u8],
    pub sname: &'a [u8],
}

/// An option that the end of its area cuts: without its length byte, or with fewer bytes than that says.
#[derive(Clone, Copy, Debug, PartialEq, Eq)]
pub struct Malformed {
    pub place: usize,
}

/// The options of a message. `overload` tells which areas hold options beside the first (RFC 2132, section 9.3).
#[derive(Clone, Copy)]
pub struct OptionView<'a> {
    pub areas: Areas<'a>,
    pub overload: Overload,
}

/// The view of the areas' options. It is refused at the first malformed option of the areas that are read, in the order
/// options, file, sname; the place counts from the front of the three areas laid end to end.
pub fn options_of<'a>(areas: Areas<'a>) -> Result<OptionView<'a>, Malformed>
    requires { length areas.options.now + length areas.file.now + length areas.sname.now < 2 ^ 64 }
    ensures same { IfOk result (λ view. area_bytes view.areas ≡ area_bytes areas.entry) }
    ensures overload { IfOk result (λ view. view.overload ≡ overload_in areas.entry.options.now) }
    ensures whole { IfOk result (λ _. malformed_of areas.entry ≡ None) }
    ensures malformed { IfErr result (λ malformed. malformed_of areas.entry ≡ Some malformed.place) }
{
    let overload = check_area(areas.options, 0)?;
    let file = areas.options.len();
    if overload.reads_file() {
        check_area(areas.file, file)?;
    }
    if overload.reads_sname() {
        check_area(areas.sname, file + areas.file.len())?;
    }
    Ok(OptionView { areas, overload })
}
