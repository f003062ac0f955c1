//! Options, by their names or codes.
ghost use Rattle.std.specs.Prelude.{◌≡◌, option_map, map, filter, filter_map, IfOk};
ghost use Rattle.std.specs.List.{list_all, list_any};
ghost use Rattle.std.specs.Char.{is_ascii_digit};
ghost use Rattle.conf_directives.specs.Contents.{codes_content, said_content};
ghost use Rattle.conf_directives.specs.Codes.{are_right, is_needed, is_noticed, is_rapid, is_wrong};
ghost use Rattle.conf_directives.specs.Codes.{code_at, code_in, codes_by, codes_in, codes_of, codes_said, taken_code};
ghost use Rattle.conf_directives.specs.Codes.{name_in, number_in, option_word, other_in};
ghost use Rattle.v4_options.specs.OptionTable.{code_named};

use crate::names::CodeList;
use crate::values::{CodesSaid, Directive, LineSaid};
use conf_values::all_options;
use net_types::{NoMemory, u8_of};
use std::alloc::{AllocError, Global};
use v4_options::{code, code_named};

/// What a word says in a list of options.
#[derive(Clone, Copy)]
pub(crate) enum OptionWord {
    /// The option of this code.
    Taken(u8),
    /// Two messages in place of four (RFC 8415, section 21.14).
    RapidCommit,
    /// It isn't taken.
    Noticed,
    /// A number that is no code.
    Wrong,
}

/// Whether no lease is one without it.
fn is_needed(number: u8) -> bool
    ensures { result ≡ is_needed number }
{
    matches!(
        number,
        code::LEASE_TIME | code::MESSAGE_TYPE | code::SERVER_IDENTIFIER
    )
}

fn code_in(list: CodeList, number: u8) -> OptionWord
    ensures { result ≡ code_in list number }
{
    match list {
        CodeList::Refused if is_needed(number) => OptionWord::Noticed,
        CodeList::Asked | CodeList::Refused | CodeList::Required => OptionWord::Taken(number),
    }
}

fn other_in(list: CodeList, word: &[u8]) -> OptionWord
    ensures { result ≡ other_in list word.now }
{
    match list {
        CodeList::Asked if word == b"rapid_commit".as_slice() => OptionWord::RapidCommit,
        CodeList::Asked | CodeList::Refused | CodeList::Required => OptionWord::Noticed,
    }
}

fn code_at(word: &[u8]) -> Option<u8>
    ensures { result ≡ code_at word.now }
{
    let number = u8_of(word, u64::from(code::END))?;
    if number > code::PAD {
        Some(number)
    } else {
        None
    }
}

fn number_in(list: CodeList, word: &[u8]) -> OptionWord
    ensures { result ≡ number_in list (code_at word.now) }
{
    match code_at(word) {
        Some(number) => code_in(list, number),
        None => OptionWord::Wrong,
    }
}

fn name_in(list: CodeList, word: &[u8]) -> OptionWord
    ensures { result ≡ name_in list word.now (code_named word.now) }
{
    match code_named(word) {
        Some(number) => code_in(list, number),
        None => other_in(list, word),
    }
}

fn are_digits(word: &[u8]) -> bool
    ensures { result ≡ list_all is_ascii_digit word.now }
{
    word.iter().all(|byte| byte.is_ascii_digit())
}

fn option_word(list: CodeList, word: &[u8]) -> OptionWord
    ensures { result ≡ option_word list word.now }
{
    if are_digits(word) {
        number_in(list, word)
    } else {
        name_in(list, word)
    }
}

fn taken_code(word: OptionWord) -> Option<u8>
    ensures { result ≡ taken_code word }
{
    match word {
        OptionWord::Taken(number) => Some(number),
        OptionWord::RapidCommit | OptionWord::Noticed | OptionWord::Wrong => None,
    }
}

fn is_rapid(word: OptionWord) -> bool
    ensures { result ≡ is_rapid word }
{
    matches!(word, OptionWord::RapidCommit)
}

fn is_noticed(word: OptionWord) -> bool
    ensures { result ≡ is_noticed word }
{
    matches!(word, OptionWord::Noticed)
}

fn is_wrong(word: OptionWord) -> bool
    ensures { result ≡ is_wrong word }
{
    matches!(word, OptionWord::Wrong)
}

fn any_wrong(list: CodeList, words: &[&[u8]]) -> bool
    ensures { result ≡ list_any (λ word. is_wrong (option_word list word.now)) words.now }
{
    words.iter().any(|word| is_wrong(option_word(list, word)))
}

#[tactic(auto, using(crate::proofs::Views::right_viewed))]
fn are_right(list: CodeList, words: &[&[u8]]) -> bool
    ensures { result ≡ are_right list (map (λ word. word.now) words.now) }
{
    !words.is_empty() && !any_wrong(list, words)
}

fn taken_codes(alloc: Global, list: CodeList, words: &[&[u8]]) -> Result<Vec<u8>, AllocError>
    ensures { IfOk result
        (λ codes. codes.items ≡ filter_map (λ word. taken_code (option_word list word.now)) words.now) }
{
    words
        .iter()
        .filter_map(|word| taken_code(option_word(list, word)))
        .collect(alloc)
}

fn says_rapid(list: CodeList, words: &[&[u8]]) -> bool
    ensures { result ≡ list_any (λ word. is_rapid (option_word list word.now)) words.now }
{
    words.iter().any(|word| is_rapid(option_word(list, word)))
}

fn noticed_words<'a>(
    alloc: Global,
    list: CodeList,
    words: &[&'a [u8]],
) -> Result<Vec<&'a [u8]>, AllocError>
    ensures { IfOk result
        (λ noticed. noticed.items ≡ filter (λ word. is_noticed (option_word list word.now)) words.now) }
{
    words
        .iter()
        .copied()
        .filter(|word| is_noticed(option_word(list, word)))
        .collect(alloc)
}

#[tactic(auto, using(crate::proofs::Views::codes_viewed))]
fn codes_by<'a>(
    alloc: Global,
    list: CodeList,
    words: &[&'a [u8]],
) -> Result<Option<LineSaid<'a>>, NoMemory>
    ensures { IfOk result (λ said. option_map said_content said ≡ codes_by list (map (λ word. word.now) words.now)) }
{
    if !are_right(list, words) {
        return Ok(None);
    }
    let said = CodesSaid {
        codes: taken_codes(alloc, list, words)?,
        rapid: says_rapid(list, words),
        words: words.len(),
    };
    Ok(Some(LineSaid {
        directive: Some(Directive::Codes(list, said)),
        notices: noticed_words(alloc, list, words)?,
    }))
}

/// What a line of a list of options says.
pub(crate) fn codes_said<'a>(
    alloc: Global,
    list: CodeList,
    arguments: &[&'a [u8]],
) -> Result<Option<LineSaid<'a>>, NoMemory>
    ensures { IfOk result
        (λ said. option_map said_content said ≡ codes_said list (map (λ text. text.now) arguments.now)) }
{
    let words = all_options(alloc, arguments)?;
    codes_by(alloc, list, &words)
}
