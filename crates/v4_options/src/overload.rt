//! Which fields of a message hold options (RFC 2132, section 9.3).
ghost use Rattle.std.specs.Prelude.{◌≡◌};
ghost use Rattle.v4_options.specs.Overload.{reads_file, reads_sname};

pub(crate) const FILE: u8 = 1;

pub(crate) const SNAME: u8 = 2;

pub(crate) const BOTH: u8 = 3;

/// The fields that hold options beside the area of options.
#[derive(Clone, Copy, Debug, PartialEq, Eq)]
pub enum Overload {
    Neither,
    File,
    Sname,
    Both,
}

impl Overload {
    /// Whether options stand in the field `file`.
    pub fn reads_file(self) -> bool
        ensures { result ≡ reads_file self }
    {
        matches!(self, Overload::File | Overload::Both)
    }

    /// Whether options stand in the field `sname`.
    pub fn reads_sname(self) -> bool
        ensures { result ≡ reads_sname self }
    {
        matches!(self, Overload::Sname | Overload::Both)
    }
}
