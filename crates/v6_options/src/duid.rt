//! DUIDs, which tell clients and servers apart.

ghost use Rattle.std.specs.Prelude.{◌≡◌, ◌≤◌, length, IfOk};
ghost use Rattle.std.specs.Option.{option_map};
ghost use Rattle.v6_options.specs.Duids.{duid_in};

use net_types::NoMemory;
use std::alloc::Global;

/// A DUID: 2 to 130 bytes, of which the first two tell its type (RFC 8415, section 11.1).
#[derive(Drop)]
pub struct Duid {
    bytes: Vec<u8>,
    ghost least: { 2 ≤ length bytes.items },
    ghost most: { length bytes.items ≤ 130 },
}

impl Duid {
    /// The bytes of the type alone.
    pub const LEN_MIN: usize = 2;
    /// The type and the longest identifier.
    pub const LEN_MAX: usize = 130;

    /// The DUID of these bytes. None where they are too few or too many.
    pub fn new(alloc: Global, bytes: &[u8]) -> Result<Option<Duid>, NoMemory>
        ensures { IfOk result (λ duid. option_map (λ d. d.bytes.items) duid ≡ duid_in bytes.now) }
    {
        if bytes.len() < Duid::LEN_MIN {
            return Ok(None);
        }
        if bytes.len() > Duid::LEN_MAX {
            return Ok(None);
        }
        match Vec::from_slice(alloc, bytes) {
            Ok(bytes) => Ok(Some(Duid { bytes })),
            Err(_) => Err(NoMemory),
        }
    }

    /// The bytes, in the order sent.
    pub fn as_slice(&self) -> &[u8]
        ensures bytes { result.now ≡ self.now.bytes.items }
        ensures least { 2 ≤ length result.now }
        ensures most { length result.now ≤ 130 }
    {
        &self.bytes
    }
}
