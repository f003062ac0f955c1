//! Which interfaces a word names.
ghost use Rattle.std.specs.Prelude.{◌≡◌};
ghost use Rattle.conf_values.specs.Patterns.{beginning, pattern};

use crate::words::Word;
use net_types::{Name, NoMemory, name_of};
use std::alloc::Global;

/// Which interfaces a word names.
#[derive(Clone, Copy, Debug)]
pub enum Pattern {
    /// The one of this name.
    Exactly(Name),
    /// `*`: all.
    Any,
    /// A beginning and `*`: those whose names begin so.
    Beginning(Name),
}

fn beginning(text: &[u8]) -> Option<Pattern>
    ensures { result ≡ beginning text.now }
{
    if text.is_empty() {
        return Some(Pattern::Any);
    }
    Some(Pattern::Beginning(name_of(text)?))
}

fn pattern_of(word: &[u8]) -> Option<Pattern>
    ensures { result ≡ pattern word.now }
{
    match word {
        [front @ .., b'*'] => beginning(front),
        _ => Some(Pattern::Exactly(name_of(word)?)),
    }
}

impl Word for Pattern {
    ghost use Rattle.conf_values.specs.Patterns.{pattern};

    ghost spelled = { pattern };

    fn of_word(_alloc: Global, word: &[u8]) -> Result<Option<Pattern>, NoMemory> {
        Ok(pattern_of(word))
    }
}
