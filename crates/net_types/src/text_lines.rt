//! Texts of lines, read line by line to a value or to the first bad line.
ghost use Rattle.std.specs.Prelude.{◌≡◌, ℕ, List, Option, Some, IfOk, IfErr};
ghost use Rattle.net_types.specs.TextLines.{Front, Whole, Unended, End};
ghost use Rattle.net_types.specs.FirstBadLine.{FirstFault, IsSpelled};
ghost use Rattle.net_types.specs.LineFormats.{LineLaws};
ghost use Rattle.net_types.specs.LineReading.{Gives, Refuses, Stops};
ghost use Rattle.net_types.specs.declared.text_lines.LineFault.TheVariants as faults;

use crate::cutting::split_at_byte;
use crate::fault::NoMemory;
use std::alloc::{AllocError, AllocFailed, Global};
use std::fmt::Display;
use thiserror::Error;

/// Why a step was not made.
#[derive(Clone, Copy, Debug, PartialEq, Eq, Error)]
#[error_bound(C: Display)]
pub enum LineFault<C> {
    /// The line may not stand there, or the text may not end there.
    #[error(transparent)]
    Bad(C),
    /// Memory ran out.
    #[error("NoMemory")]
    NoMemory,
}

/// Why a text of lines gives no value.
#[derive(Clone, Copy, Debug, PartialEq, Eq, Error)]
#[error_bound(C: Display)]
pub enum TextFault<C> {
    /// The first bad line, counted from 1, and its cause. Where a text ends early, that is the line after its last.
    #[error("line {line}: {cause}")]
    Bad { line: usize, cause: C },
    /// Memory ran out.
    #[error("NoMemory")]
    NoMemory,
}

impl<C> From<NoMemory> for LineFault<C> {
    ghost from_gives = { λ _ fault. fault ≡ faults.NoMemory };

    fn from(_error: NoMemory) -> LineFault<C> {
        LineFault::NoMemory
    }
}

impl<C> From<AllocError> for LineFault<C> {
    ghost from_gives = { λ _ fault. fault ≡ faults.NoMemory };

    fn from(_error: AllocError) -> LineFault<C> {
        LineFault::NoMemory
    }
}

impl<C, T: Drop> From<AllocFailed<T>> for LineFault<C> {
    ghost from_gives = { λ _ fault. fault ≡ faults.NoMemory };

    fn from(_error: AllocFailed<T>) -> LineFault<C> {
        LineFault::NoMemory
    }
}

/// What has been read so far of a text of lines.
pub trait LineState: Sized {
    /// What a whole text says.
    type Value;
    /// Why a line is bad.
    type Cause;

    // The state and the value, as definitions see them.
    ghost State: { Type 0 };

    ghost Said: { Type 0 };

    ghost state: { Self → State };

    ghost said: { Self.Value → Said };

    // The state after a line more, the value of a text that ends here, and why a state can't go on.
    ghost step: { State → List ℕ → Option State };

    ghost given: { State → Option Said };

    ghost cause: { State → Front → Self.Cause };

    // Which lines spell a value, what a state tells of the lines before it, and which cause the line after these has.
    ghost Spells: { Said → List (List ℕ) → Type 0 };

    ghost After: { State → List (List ℕ) → Type 0 };

    ghost Why: { List (List ℕ) → Front → Self.Cause → Type 0 };

    /// The state after one line more.
    fn take(self, alloc: Global, line: &[u8]) -> Result<Self, LineFault<Self::Cause>>
        ensures taken { IfOk result (λ next. step (state self) line.now ≡ Some (state next)) }
        ensures bad { IfErr result
            (λ fault. Refuses (step (state self) line.now) (cause (state self) (Whole line.now)) fault) };

    /// Why a last line without a line feed is bad.
    fn unended(&self, rest: &[u8]) -> Self::Cause
        ensures { result ≡ cause (state self.now) (Unended rest.now) };

    /// The value, where the text may end here.
    fn end(self, alloc: Global) -> Result<Self::Value, LineFault<Self::Cause>>
        ensures ended { IfOk result (λ value. given (state self) ≡ Some (said value)) }
        ensures early { IfErr result (λ fault. Refuses (given (state self)) (cause (state self) End) fault) };
}

/// The lines taken one by one.
fn take_lines<T: LineState + Drop>(
    alloc: Global,
    start: T,
    text: &[u8],
) -> Result<T::Value, TextFault<T::Cause>>
    ensures gives { IfOk result (λ value. Gives T.step T.given (T.state start) text.now (T.said value)) }
    ensures stops { IfErr result (λ fault. Stops T.step T.given T.cause (T.state start) text.now fault) }
{
    let mut state = start;
    let mut rest = text;
    let mut line: usize = 1;
    let _size = text.len();
    'lines: while !rest.is_empty() {
        let Some((words, others)) = split_at_byte(rest, b'\n') else {
            return Err(TextFault::Bad {
                line,
                cause: state.unended(rest),
            });
        };
        match state.take(alloc, words) {
            Ok(next) => state = next,
            Err(LineFault::Bad(cause)) => return Err(TextFault::Bad { line, cause }),
            Err(LineFault::NoMemory) => return Err(TextFault::NoMemory),
        }
        rest = others;
        line += 1;
    }
    match state.end(alloc) {
        Ok(value) => Ok(value),
        Err(LineFault::Bad(cause)) => Err(TextFault::Bad { line, cause }),
        Err(LineFault::NoMemory) => Err(TextFault::NoMemory),
    }
}

/// The value that the text spells, or its first bad line: a good text begins with the lines before it, and none goes
/// on with it. Linear in the text, where each step is.
pub fn read_lines<T: LineState + Drop>(
    alloc: Global,
    start: T,
    text: &[u8],
) -> Result<T::Value, TextFault<T::Cause>>
    requires owes { LineLaws T.Spells T.Why T.step T.given T.cause T.After (T.state start) }
    ensures found { IfOk result (λ value. IsSpelled T.Spells text.now (T.said value)) }
    ensures bad { IfErr result (λ fault. FirstFault T.Spells T.Why text.now fault) }
{
    match take_lines(alloc, start, text) {
        Ok(value) => Ok(value),
        Err(fault) => Err(fault),
    }
}
