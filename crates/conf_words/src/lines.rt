//! The lines of a text, and their directives.
ghost use Rattle.std.specs.Prelude.{◌≡◌, [], IfNone, IfSome, option_map};
ghost use Rattle.conf_words.specs.Directives.{directive_in, says_nothing, shown_line};
ghost use Rattle.conf_words.specs.Steps.{line_at, without_return};
ghost use Rattle.conf_words.specs.TextLines.{BeginsWithLine};

use crate::cutting::{cut_word, past_blanks};
use net_types::split_at_byte;

/// A line that isn't skipped.
#[derive(Clone, Copy, PartialEq, Eq)]
pub struct Line<'a> {
    /// Its number in the text, from 1.
    pub number: usize,
    /// Its first word, which is never quoted.
    pub directive: &'a [u8],
    /// What stands after that word: nothing, or text that begins with a blank or a tab.
    pub about: &'a [u8],
}

#[tactic(auto, unfolding(crate::specs::Steps::without_return))]
fn without_return(line: &[u8]) -> &[u8]
    ensures { result.now ≡ without_return line.now }
{
    if line.ends_with(b"\r") {
        &line[..line.len() - 1]
    } else {
        line
    }
}

#[tactic(auto, unfolding(crate::specs::Steps::line_at))]
fn cut_line(text: &[u8]) -> Option<(&[u8], &[u8])>
    ensures { option_map (λ p. (p.0.now, p.1.now)) result ≡ line_at text.now }
{
    if text.is_empty() {
        return None;
    }
    match split_at_byte(text, b'\n') {
        Some((line, rest)) => Some((without_return(line), rest)),
        None => Some((text, &text[text.len()..])),
    }
}

/// The first line without its end, and the text after that. A line ends with a line feed, or with one carriage return
/// and a line feed, or with the text.
pub fn first_line(text: &[u8]) -> Option<(&[u8], &[u8])>
    ensures line { IfSome result (λ p. BeginsWithLine text.now p.0.now p.1.now) }
    ensures end { IfNone result (text.now ≡ []) }
{
    match cut_line(text) {
        Some((line, rest)) => Some((line, rest)),
        None => None,
    }
}

fn says_nothing(words: &[u8]) -> bool
    ensures { result ≡ says_nothing words.now }
{
    match words.first() {
        Some(byte) => *byte == b'#' || *byte == b';',
        None => true,
    }
}

/// The line with its directive, and None where it has no word or is a comment.
#[tactic(auto, unfolding(crate::specs::Directives::directive_in))]
pub fn directive_of<'a>(number: usize, line: &'a [u8]) -> Option<Line<'a>>
    ensures { option_map shown_line result ≡ directive_in number line.now }
{
    let words = past_blanks(line);
    if says_nothing(words) {
        return None;
    }
    let (directive, about) = cut_word(words);
    Some(Line {
        number,
        directive,
        about,
    })
}
