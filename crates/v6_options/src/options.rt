//! The walk over the options of an area, which copies nothing.

ghost use Rattle.std.specs.Prelude.{◌≡◌, ◌∷◌, [], IfSome, MatchOption, true};
ghost use Rattle.std.specs.Option.{option_map};
ghost use Rattle.std.specs.Iterator.{YieldsFirstBy, item_count};
ghost use Rattle.v6_options.specs.OptionArea.{has_form, instances_in};
ghost use Rattle.v6_options.specs.OptionWalk.{first_of, instances_left, instance_of};

use crate::area::{Front, read_front};
use crate::layout::HEADER_LEN;

/// An option: its code and its value.
#[derive(Clone, Copy)]
pub struct OptionView<'a> {
    pub code: u16,
    pub value: &'a [u8],
}

/// The options of an area that are left of a walk, without those that they hold.
#[derive(Clone, Copy)]
pub struct Options<'a> {
    rest: &'a [u8],
}

/// The first option of an area, and the area after it.
pub(crate) fn split_option(area: &[u8]) -> Option<(OptionView<'_>, &[u8])>
    ensures list { MatchOption result (instances_in area.now ≡ [])
        (λ x. instances_in area.now ≡ instance_of x.0 ∷ instances_in x.1.now) }
    ensures form { IfSome result (λ x. has_form x.0.code x.0.value.now ≡ true) }
{
    match read_front(area) {
        Front::End => None,
        Front::Bad => None,
        Front::Whole(code, len) => {
            let (value, rest) = area[HEADER_LEN..].split_at(len);
            Some((OptionView { code, value }, rest))
        }
    }
}

/// The options of an area, in its order, up to its end or one that breaks the rule.
pub fn options_of(area: &[u8]) -> Options<'_>
    ensures { instances_left result ≡ instances_in area.now }
{
    Options { rest: area }
}

impl<'a> Iterator for Options<'a> {
    type Item = OptionView<'a>;

    ghost next_gives = { YieldsFirstBy instance_of instances_left };

    ghost remaining = { item_count instances_left };

    fn next(&mut self) -> Option<OptionView<'a>> {
        let (option, rest) = split_option(self.rest)?;
        self.rest = rest;
        Some(option)
    }
}

/// The value of an area's first option of a code.
pub fn first_value(area: &[u8], code: u16) -> Option<&[u8]>
    ensures value { option_map (λ value. value.now) result ≡ first_of code (instances_in area.now) }
    ensures form { IfSome result (λ value. has_form code value.now ≡ true) }
{
    let mut rest = area;
    'options: while let Some((option, others)) = split_option(rest) {
        if option.code == code {
            return Some(option.value);
        }
        rest = others;
    }
    None
}
