//! Which names the files of a store may have.

ghost use Rattle.std.specs.Prelude.{◌≡◌};
ghost use Rattle.std.specs.List.{list_all};
ghost use Rattle.world.specs.FileLists.{is_aside};
ghost use Rattle.world.specs.FileNames.{is_file_byte};
ghost use Rattle.folder_store.specs.FolderCalls.{is_aside_name};

/// What the name of an aside ends in.
pub(crate) const ASIDE: &str = ".new";

/// A letter, a digit, `.`, `_` or `-`.
fn is_file_byte(byte: u8) -> bool
    ensures { result ≡ is_file_byte byte }
{
    byte.is_ascii_lowercase()
        || byte.is_ascii_uppercase()
        || byte.is_ascii_digit()
        || byte == b'.'
        || byte == b'_'
        || byte == b'-'
}

/// Whether a name is one that a file of the store may have.
fn is_file_name(name: &[u8]) -> bool
    ensures { result ≡ list_all is_file_byte name.now }
{
    name.iter().all(|byte| is_file_byte(*byte))
}

/// Whether a name ends as that of an aside.
fn ends_aside(name: &[u8]) -> bool
    ensures { result ≡ is_aside name.now }
{
    let end = &name[name.len().saturating_sub(ASIDE.len())..];
    end.cmp(&ASIDE.as_bytes()).is_eq()
}

/// Whether a name is one that a store's aside may have.
pub(crate) fn is_aside_name(name: &[u8]) -> bool
    ensures { result ≡ is_aside_name name.now }
{
    ends_aside(name) && is_file_name(name)
}
