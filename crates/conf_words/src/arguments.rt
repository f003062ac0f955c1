//! What follows a directive in its line.
ghost use Rattle.std.specs.Prelude.{◌≡◌, IfNone, IfOk, IfSome, map, option_map};
ghost use Rattle.conf_words.specs.Arguments.{AreArgumentsOf, IsWholeArgument, Said, shown_argument};
ghost use Rattle.conf_words.specs.Steps.{argument_at, ends_line, plain_at, quoted_at, whole_at};

use crate::cutting::{cut_word, past_blanks};
use net_types::{NoMemory, split_at_byte};
use std::alloc::Global;

/// How an argument is written.
#[derive(Clone, Copy, PartialEq, Eq)]
pub enum Form {
    /// As it is.
    Plain,
    /// After a quote, and up to the next one or the end of the line.
    Quoted,
}

/// An argument of a directive.
#[derive(Clone, Copy, PartialEq, Eq)]
pub struct Argument<'a> {
    pub form: Form,
    /// Its bytes, without the quotes round them.
    pub text: &'a [u8],
}

/// The quoted argument whose first quote stands before the text, and the text after it.
#[tactic(auto, unfolding(crate::specs::Steps::quoted_at))]
fn cut_quoted(text: &[u8]) -> (Argument<'_>, &[u8])
    ensures { (shown_argument result.0, result.1.now) ≡ quoted_at text.now }
{
    let (text, rest) = match split_at_byte(text, b'"') {
        Some(parts) => parts,
        None => (text, &text[text.len()..]),
    };
    let form = Form::Quoted;
    (Argument { form, text }, rest)
}

fn cut_plain(text: &[u8]) -> (Argument<'_>, &[u8])
    ensures { (shown_argument result.0, result.1.now) ≡ plain_at text.now }
{
    let (text, rest) = cut_word(text);
    let form = Form::Plain;
    (Argument { form, text }, rest)
}

#[tactic(auto, unfolding(crate::specs::Steps::argument_at))]
fn next_argument(text: &[u8]) -> Option<(Argument<'_>, &[u8])>
    ensures { option_map (λ p. (shown_argument p.0, p.1.now)) result ≡ argument_at text.now }
{
    let words = past_blanks(text);
    match words.split_first() {
        Some((b'"', quoted)) => Some(cut_quoted(quoted)),
        Some(_) => Some(cut_plain(words)),
        None => None,
    }
}

/// The arguments that follow a directive. What stands right after a closing quote begins another one; a quote within a
/// plain one is a byte like others.
pub fn arguments_of<'a>(alloc: Global, about: &'a [u8]) -> Result<Vec<Argument<'a>>, NoMemory>
    ensures { IfOk result (λ arguments. AreArgumentsOf about.now (map shown_argument arguments.items)) }
{
    let mut arguments = Vec::new(alloc);
    let mut rest = about;
    'arguments: while let Some((argument, others)) = next_argument(rest) {
        arguments.push(argument)?;
        rest = others;
    }
    Ok(arguments)
}

fn ends_line(text: &[u8]) -> bool
    ensures { result ≡ ends_line text.now }
{
    past_blanks(text).is_empty()
}

#[tactic(auto, unfolding(crate::specs::Steps::whole_at))]
fn cut_whole(about: &[u8]) -> Option<Argument<'_>>
    ensures { option_map shown_argument result ≡ whole_at about.now }
{
    let words = past_blanks(about);
    match words.split_first() {
        Some((b'"', quoted)) => {
            let (argument, rest) = cut_quoted(quoted);
            if ends_line(rest) {
                Some(argument)
            } else {
                None
            }
        }
        Some(_) => {
            let form = Form::Plain;
            Some(Argument { form, text: words })
        }
        None => None,
    }
}

/// The rest of a line as one argument, as `static` takes it: a quoted one, after which nothing may follow, or all that
/// stands after the blanks in front, with blanks within it and at its end.
pub fn whole_argument(about: &[u8]) -> Option<Argument<'_>>
    ensures whole { IfSome result (λ argument. IsWholeArgument about.now (shown_argument argument)) }
    ensures none { IfNone result ((argument : Said) → ¬ IsWholeArgument about.now argument) }
{
    match cut_whole(about) {
        Some(argument) => Some(argument),
        None => None,
    }
}
