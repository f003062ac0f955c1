//! The labels of names (RFC 1035, section 2.3.1).

ghost use Rattle.std.specs.Prelude.{◌≡◌};
ghost use Rattle.std.specs.List.{list_all};
ghost use Rattle.domain_names.specs.DomainName.{is_name_byte, is_label};

/// The longest label (RFC 1035, section 2.3.4).
pub(crate) const LABEL_MAX: usize = 63;
/// The longest name, as a text (RFC 1035, section 2.3.4).
pub(crate) const NAME_MAX: usize = 253;
/// The byte between two labels of a text.
pub(crate) const DOT: u8 = b'.';

/// Whether a byte can stand in a label.
pub(crate) fn is_name_byte(byte: u8) -> bool
    ensures { result ≡ is_name_byte byte }
{
    byte.is_ascii_alphanumeric() || byte == b'-' || byte == b'_'
}

/// Whether the bytes are a label.
pub(crate) fn is_label(label: &[u8]) -> bool
    ensures { result ≡ is_label label.now }
{
    if label.len() < 1 {
        return false;
    }
    if label.len() > LABEL_MAX {
        return false;
    }
    are_name_bytes(label)
}

fn are_name_bytes(bytes: &[u8]) -> bool
    ensures { result ≡ list_all is_name_byte bytes.now }
{
    bytes.iter().all(|byte| is_name_byte(*byte))
}
