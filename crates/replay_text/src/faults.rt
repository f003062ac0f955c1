//! Why a text is no script.
use thiserror::Error;

/// What is wrong with a line.
#[derive(Clone, Copy, Debug, PartialEq, Eq, Error)]
pub enum ScriptCause {
    /// A byte outside printable ASCII, or no line feed at the end.
    #[error("NotText")]
    NotText,
    /// The first word is none that a line begins with.
    #[error("Word")]
    Word,
    /// The line may not stand there.
    #[error("Order")]
    Order,
    /// What follows the first word isn't of the line's form.
    #[error("Form")]
    Form,
}

/// The first bad line, from 1, and what is wrong with it.
#[derive(Clone, Copy, Debug, PartialEq, Eq, Error)]
#[error("script line {line}: {cause}")]
pub struct ScriptFault {
    pub line: u64,
    pub cause: ScriptCause,
}

/// Why there is no script.
#[derive(Clone, Copy, Debug, PartialEq, Eq, Error)]
pub enum ScriptAnswer {
    #[error(transparent)]
    Bad(ScriptFault),
    #[error("NoMemory")]
    NoMemory,
}
