//! What failures of the system's calls say.

ghost use Rattle.std.specs.Prelude.{◌≡◌};
ghost use Rattle.system_calls.specs.DiskCalls.{is_missing, is_no_text};

use std::io::ErrorKind;

/// Whether a failure says that there is no such file.
pub(crate) fn is_missing(kind: ErrorKind) -> bool
    ensures { result ≡ is_missing kind }
{
    matches!(kind, ErrorKind::NotFound)
}

/// Whether a failure says that a name is no text.
pub(crate) fn is_no_text(kind: ErrorKind) -> bool
    ensures { result ≡ is_no_text kind }
{
    matches!(kind, ErrorKind::InvalidFilename)
}
