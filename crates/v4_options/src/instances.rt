//! The walk over the instances of a code, and its value.

ghost use Rattle.std.specs.Prelude.{◌≡◌, ◌≢◌, ◌≤◌, ◌<◌, ◌+◌, ◌++◌, [], IfNone, IfOk, IfSome, length, take, if◌then◌else◌};
ghost use Rattle.std.specs.Option.{is_some, option_map};
ghost use Rattle.std.specs.Iterator.{YieldsFirstBy, item_count};
ghost use Rattle.v4_options.specs.OptionArea.{instances_in};
ghost use Rattle.v4_options.specs.OptionValue.{pieces, joined, value_of, byte_of, bytes_at, is_present};
ghost use Rattle.v4_options.specs.OptionViews.{view_instances, pieces_left};
ghost use Rattle.v4_options.specs.Numbers.{address_at, number_at};

use crate::area::find_option;
use crate::view::OptionView;
use byteorder::{BigEndian, ByteOrder};
use net_types::{Ip4, NoMemory};
use std::alloc::{AllocError, Global};

/// The values of one code's instances that are left of a walk over the areas.
#[derive(Clone, Copy)]
pub struct Pieces<'a> {
    code: u8,
    options: &'a [u8],
    file: &'a [u8],
    sname: &'a [u8],
}

/// The area, where it is read. Otherwise one that holds nothing.
#[tactic(auto, using(crate::proofs::Fronts::instances_empty))]
fn area_where(is_read: bool, area: &[u8]) -> &[u8]
    ensures { instances_in result.now ≡ (if is_read then instances_in area.now else []) }
{
    if is_read { area } else { &[] }
}

/// The values of the code's instances, in the order options, file, sname. End to end they are its value (RFC 3396).
/// The walk copies nothing.
pub fn pieces_of<'a>(view: &OptionView<'a>, code: u8) -> Pieces<'a>
    ensures { pieces_left result ≡ pieces code (view_instances view.now) }
{
    Pieces {
        code,
        options: view.areas.options,
        file: area_where(view.overload.reads_file(), view.areas.file),
        sname: area_where(view.overload.reads_sname(), view.areas.sname),
    }
}

impl<'a> Iterator for Pieces<'a> {
    type Item = &'a [u8];

    ghost next_gives = { YieldsFirstBy (λ piece. piece.now) pieces_left };

    ghost remaining = { item_count pieces_left };

    #[tactic(auto, using(crate::proofs::Fronts::instances_empty))]
    fn next(&mut self) -> Option<&'a [u8]> {
        if let Some((piece, rest)) = find_option(self.options, self.code) {
            self.options = rest;
            return Some(piece);
        }
        self.options = &[];
        if let Some((piece, rest)) = find_option(self.file, self.code) {
            self.file = rest;
            return Some(piece);
        }
        self.file = &[];
        let (piece, rest) = find_option(self.sname, self.code)?;
        self.sname = rest;
        Some(piece)
    }
}

fn join(alloc: Global, mut all: Pieces) -> Result<Option<Vec<u8>>, AllocError>
    ensures { IfOk result (λ value. option_map (λ v. v.items) value ≡ joined (pieces_left all.entry)) }
{
    let Some(first) = all.next() else {
        return Ok(None);
    };
    let mut value = Vec::from_slice(alloc, first)?;
    for piece in all {
        value.extend_from_slice(piece)?;
    }
    Ok(Some(value))
}

/// The value of a code: the values of all its instances, end to end. None where there is no instance.
pub fn value(alloc: Global, view: &OptionView, code: u8) -> Result<Option<Vec<u8>>, NoMemory>
    ensures { IfOk result (λ value. option_map (λ v. v.items) value ≡ value_of code (view_instances view.now)) }
{
    match join(alloc, pieces_of(view, code)) {
        Ok(value) => Ok(value),
        Err(_) => Err(NoMemory),
    }
}

/// The byte of a code's value, where that is one byte. It takes no memory.
pub fn byte_at(view: &OptionView, code: u8) -> Option<u8>
    ensures { result ≡ byte_of code (view_instances view.now) }
{
    let mut only = None;
    'pieces: for piece in pieces_of(view, code) {
        if piece.is_empty() {
            continue;
        }
        if piece.len() > 1 {
            return None;
        }
        if only.is_some() {
            return None;
        }
        only = Some(piece[0]);
    }
    only
}

/// Whether a code has an instance. It takes no memory.
pub fn present(view: &OptionView, code: u8) -> bool
    ensures { result ≡ is_present code (view_instances view.now) }
{
    pieces_of(view, code).next().is_some()
}

/// The bytes of an address or of a number of 32 bits.
const WORD_LEN: usize = 4;

/// Lays a piece behind the bytes of a word that are filled, and tells how many are then. None where there is no room.
fn lay(word: &mut [u8; 4], filled: usize, piece: &[u8]) -> Option<usize>
    requires { filled ≤ 4 }
    ensures none { IfNone result (4 < filled + length piece.now) }
    ensures within { IfSome result (λ end. end ≤ 4) }
    ensures laid { IfSome result (λ end. take end word.new ≡ take filled word.old ++ piece.now) }
{
    if piece.len() > WORD_LEN - filled {
        return None;
    }
    let end = filled + piece.len();
    word[filled..end].copy_from_slice(piece);
    Some(end)
}

/// The bytes of a code's instances, end to end, where they are those of a word.
fn word_at(view: &OptionView, code: u8) -> Option<[u8; 4]>
    ensures other { IfNone result (length (bytes_at code (view_instances view.now)) ≢ 4) }
    ensures word { IfSome result (λ word. word ≡ bytes_at code (view_instances view.now)) }
{
    let mut word = [0; 4];
    let mut filled = 0;
    'pieces: for piece in pieces_of(view, code) {
        let Some(end) = lay(&mut word, filled, piece) else {
            return None;
        };
        filled = end;
    }
    if filled < WORD_LEN {
        return None;
    }
    Some(word)
}

/// The number that a code's value is: that of all its instances, end to end. None unless it has 4 bytes. It takes no
/// memory.
pub fn u32_at(view: &OptionView, code: u8) -> Option<u32>
    ensures { result ≡ number_at code (view_instances view.now) }
{
    let word = word_at(view, code)?;
    Some(BigEndian::read_u32(&word))
}

/// The address that a code's value is: that of all its instances, end to end. None unless it has 4 bytes. It takes no
/// memory.
pub fn addr_at(view: &OptionView, code: u8) -> Option<Ip4>
    ensures { result ≡ address_at code (view_instances view.now) }
{
    let word = word_at(view, code)?;
    Some(Ip4::from_octets(word))
}
