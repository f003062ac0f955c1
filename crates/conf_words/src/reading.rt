//! The directives of a whole text.
ghost use Rattle.std.specs.Prelude.{◌≡◌, [], ◌++◌, IfOk, OnOk, map};
ghost use Rattle.std.specs.List.{cons_option};
ghost use Rattle.conf_words.specs.Directives.{directive_in, shown_line};
ghost use Rattle.conf_words.specs.Readings.{IsReadAs, shown_reading};

use crate::characters::is_text;
use crate::lines::{Line, directive_of, first_line};
use net_types::NoMemory;
use std::alloc::Global;

/// What is read of a text.
#[derive(Drop)]
pub struct Reading<'a> {
    /// The lines that aren't skipped, up to the first one that isn't text.
    pub lines: Vec<Line<'a>>,
    /// The number of the first line that isn't text, a skipped one too. None where each is.
    pub not_text: Option<usize>,
}

/// Keeps a line where it has a directive.
fn keep<'a>(lines: &mut Vec<Line<'a>>, number: usize, line: &'a [u8]) -> Result<(), NoMemory>
    ensures { OnOk result
        (map shown_line lines.new.items
        ≡ map shown_line lines.old.items ++ cons_option (directive_in number line.now) []) }
{
    match directive_of(number, line) {
        Some(line) => {
            lines.push(line)?;
            Ok(())
        }
        None => Ok(()),
    }
}

/// Reads the lines of a text, up to its end or to the first one that isn't text. Linear in the text.
pub fn read<'a>(alloc: Global, text: &'a [u8]) -> Result<Reading<'a>, NoMemory>
    ensures { IfOk result (λ reading. IsReadAs text.now (shown_reading reading)) }
{
    let mut lines = Vec::new(alloc);
    let mut rest = text;
    let mut number: usize = 1;
    let _size = text.len();
    'lines: while let Some((line, others)) = first_line(rest) {
        if !is_text(line) {
            let not_text = Some(number);
            return Ok(Reading { lines, not_text });
        }
        keep(&mut lines, number, line)?;
        rest = others;
        number += 1;
    }
    let not_text = None;
    Ok(Reading { lines, not_text })
}
