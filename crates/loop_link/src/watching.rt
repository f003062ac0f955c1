//! How the end of a child of this process is seen.

ghost use Rattle.std.specs.Prelude.{◌≡◌, Bool, IfSome, Option};
ghost use Rattle.loop_link.specs.Waiting.{is_ended, seen_by};

use std::io::ErrorKind;
use std::process::ExitStatus;

/// What is seen of the child that hooks run.
#[derive(Clone, Copy, PartialEq, Eq)]
pub enum Seen {
    NoChild,
    Runs,
    Ended,
}

/// What sees whether a child of this process has ended.
pub trait Watch {
    /// Whether a child has ended, where that is told.
    ghost ended: { Self → Option Bool };

    /// How the child ended: nothing while it runs. `None` where there is no child.
    fn look(&self) -> Option<Result<Option<ExitStatus>, ErrorKind>>
        ensures { IfSome (ended self.now) (λ is. is_ended (seen_by result) ≡ is) };
}

/// A child that can't be asked runs on.
pub(crate) fn seen_by(asked: Option<Result<Option<ExitStatus>, ErrorKind>>) -> Seen
    ensures { result ≡ seen_by asked }
{
    match asked {
        None => Seen::NoChild,
        Some(Ok(Some(_))) => Seen::Ended,
        Some(_) => Seen::Runs,
    }
}

pub(crate) fn is_ended(seen: Seen) -> bool
    ensures { result ≡ is_ended seen }
{
    match seen {
        Seen::NoChild | Seen::Runs => false,
        Seen::Ended => true,
    }
}
