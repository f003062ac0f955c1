//! The arguments of a directive, and words within a text.
ghost use Rattle.std.specs.Prelude.{◌≡◌, ℕ, List, Option, map, flat_map, option_map, IfOk};
ghost use Rattle.net_types.specs.Cutting.{read_all};
ghost use Rattle.conf_words.specs.Marks.{parts_words};
ghost use Rattle.conf_values.specs.Words.{HasArguments, colon_parts, members_of, one_or_more, only, options_of, parts_options, slash_parts};

use conf_words::{Argument, arguments_of};
use net_types::NoMemory;
use std::alloc::{AllocError, Global};

/// A type that is read from a whole word.
pub trait Word: Sized {
    ghost spelled: { List ℕ → Option Self };

    /// The value that the word spells.
    fn of_word(alloc: Global, word: &[u8]) -> Result<Option<Self>, NoMemory>
        ensures { IfOk result (λ value. value ≡ Self.spelled word.now) };
}

fn texts_of<'a>(alloc: Global, arguments: &[Argument<'a>]) -> Result<Vec<&'a [u8]>, AllocError>
    ensures { IfOk result (λ texts. texts.items ≡ map (λ argument. argument.text) arguments.now) }
{
    arguments
        .iter()
        .map(|argument| argument.text)
        .collect(alloc)
}

/// The texts of the arguments that follow a directive.
pub fn argument_texts<'a>(alloc: Global, about: &'a [u8]) -> Result<Vec<&'a [u8]>, NoMemory>
    ensures { IfOk result (λ texts. HasArguments about.now (map (λ text. text.now) texts.items)) }
{
    let arguments = arguments_of(alloc, about)?;
    Ok(texts_of(alloc, &arguments)?)
}

/// The only text.
pub fn only<'a>(texts: &[&'a [u8]]) -> Option<&'a [u8]>
    ensures { option_map (λ text. text.now) result ≡ only (map (λ text. text.now) texts.now) }
{
    match texts {
        [text] => Some(*text),
        _ => None,
    }
}

/// What each word spells.
pub fn all_of<T: Word + Drop>(alloc: Global, words: &[&[u8]]) -> Result<Option<Vec<T>>, NoMemory>
    ensures { IfOk result
        (λ read. option_map (λ v. v.items) read ≡ read_all T.spelled (map (λ word. word.now) words.now)) }
{
    let mut read = Vec::new(alloc);
    for word in words {
        let Some(value) = T::of_word(alloc, word)? else {
            return Ok(None);
        };
        read.push(value)?;
    }
    Ok(Some(read))
}

/// What each word spells, where there is one or more.
pub fn one_or_more<T: Word + Drop>(
    alloc: Global,
    words: &[&[u8]],
) -> Result<Option<Vec<T>>, NoMemory>
    ensures { IfOk result
        (λ read. option_map (λ v. v.items) read ≡ one_or_more T.spelled (map (λ word. word.now) words.now)) }
{
    if words.is_empty() {
        return Ok(None);
    }
    all_of(alloc, words)
}

/// The parts of a text between slashes.
pub fn slash_parts(alloc: Global, text: &[u8]) -> Result<Vec<&[u8]>, AllocError>
    ensures { IfOk result (λ parts. map (λ part. part.now) parts.items ≡ slash_parts text.now) }
{
    text.split(|byte| *byte == b'/').collect(alloc)
}

/// The parts of a text between colons.
pub(crate) fn colon_parts(alloc: Global, text: &[u8]) -> Result<Vec<&[u8]>, AllocError>
    ensures { IfOk result (λ parts. map (λ part. part.now) parts.items ≡ colon_parts text.now) }
{
    text.split(|byte| *byte == b':').collect(alloc)
}

fn parts_words(byte: u8) -> bool
    ensures { result ≡ parts_words byte }
{
    byte == b' ' || byte == b'\t'
}

/// The members of a static value.
pub fn members_of(alloc: Global, value: &[u8]) -> Result<Vec<&[u8]>, AllocError>
    ensures { IfOk result (λ members. map (λ member. member.now) members.items ≡ members_of value.now) }
{
    value
        .split(|byte| parts_words(*byte))
        .filter(|member| !member.is_empty())
        .collect(alloc)
}

fn parts_options(byte: u8) -> bool
    ensures { result ≡ parts_options byte }
{
    byte == b',' || parts_words(byte)
}

/// The names and codes of options within a text.
fn options_of(alloc: Global, text: &[u8]) -> Result<Vec<&[u8]>, AllocError>
    ensures { IfOk result (λ words. map (λ word. word.now) words.items ≡ options_of text.now) }
{
    text.split(|byte| parts_options(*byte))
        .filter(|word| !word.is_empty())
        .collect(alloc)
}

/// Those of all texts.
pub fn all_options<'a>(alloc: Global, texts: &[&'a [u8]]) -> Result<Vec<&'a [u8]>, AllocError>
    ensures { IfOk result
        (λ words. map (λ word. word.now) words.items ≡ flat_map options_of (map (λ text. text.now) texts.now)) }
{
    let mut words = Vec::new(alloc);
    for text in texts {
        words.extend_from_slice(&options_of(alloc, text)?)?;
    }
    Ok(words)
}
