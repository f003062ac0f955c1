//! What is wrong with a text that is no configuration.
ghost use Rattle.std.specs.Prelude.{◌≡◌};
ghost use Rattle.conf_text.specs.Numbering.{line_number};
ghost use Rattle.conf_text.specs.declared.answers.ConfAnswer.TheVariants.{NoMemory as no_memory};

use net_types::NoMemory;
use thiserror::Error;

/// What is wrong with a line.
#[derive(Clone, Copy, Debug, PartialEq, Eq, Error)]
pub enum ConfCause {
    /// It isn't text: UTF-8 whose only control characters are tabs.
    #[error("NotText")]
    NotText,
    /// Its directive lacks an argument that it needs, or has one out of its form.
    #[error("BadArgument")]
    BadArgument,
    /// An identity association of this kind and IAID stands already.
    #[error("Repeated")]
    Repeated,
    /// It says more than a configuration may.
    #[error("TooMany")]
    TooMany,
}

/// The first line at which something is wrong.
#[derive(Clone, Copy, Debug, PartialEq, Eq, Error)]
#[error("configuration line {line}: {cause}")]
pub struct ConfFault {
    /// The line, from 1.
    pub line: u32,
    /// The first cause that holds, in their order.
    pub cause: ConfCause,
}

/// Why there is no configuration.
#[derive(Clone, Copy, Debug, PartialEq, Eq, Error)]
pub enum ConfAnswer {
    /// The text is none.
    #[error(transparent)]
    Bad(ConfFault),
    /// Memory ran out.
    #[error("NoMemory")]
    NoMemory,
}

impl From<NoMemory> for ConfAnswer {
    ghost from_gives = { λ _ answer. answer ≡ no_memory };

    fn from(_error: NoMemory) -> ConfAnswer {
        ConfAnswer::NoMemory
    }
}

/// The number by which a line is told.
pub(crate) fn line_number(number: usize) -> u32
    ensures { result ≡ line_number number }
{
    match u32::try_from(number) {
        Ok(line) => line,
        Err(_) => u32::MAX,
    }
}

/// A fault of a line.
pub(crate) fn fault_at(number: usize, cause: ConfCause) -> ConfFault
    ensures { result ≡ record { line = line_number number; cause = cause } }
{
    let line = line_number(number);
    ConfFault { line, cause }
}
