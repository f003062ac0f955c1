//! The names of interfaces.
ghost use Rattle.std.specs.Prelude.{◌≡◌, bytes_eq};
ghost use Rattle.net_types.specs.NameText.{name_text};

use net_types::Name;

fn are_equal(a: &[u8], b: &[u8]) -> bool
    ensures { result ≡ bytes_eq a.now b.now }
{
    a == b
}

/// Whether two names are one.
pub(crate) fn is_same(a: &Name, b: &Name) -> bool
    ensures { result ≡ bytes_eq (name_text a.now) (name_text b.now) }
{
    are_equal(a.as_bytes(), b.as_bytes())
}
