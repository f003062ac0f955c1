//! The options whose values a DHCPv6 lease keeps, and the form that each must have.

ghost use Rattle.std.specs.Prelude.{◌≡◌, IfOk};
ghost use Rattle.lease6_text.specs.ValueForms.{is_kept6, is_well_formed6};

use net_types::NoMemory;
use std::alloc::Global;
use v6_options::{code, dns6_of, search6_of};

/// The codes of the values that a lease keeps, rising (RFC 3646).
pub const KEPT_CODES6: [u16; 2] = [code::DNS_SERVERS, code::DOMAIN_LIST];

/// Whether a lease keeps the values of a code.
pub fn is_kept6(code: u16) -> bool
    ensures { result ≡ is_kept6 code }
{
    KEPT_CODES6.contains(&code)
}

/// Whether a value has the form of its code, one that a lease keeps. It is read for it, which takes memory.
pub fn is_well_formed6(alloc: Global, code: u16, value: &[u8]) -> Result<bool, NoMemory>
    ensures { IfOk result (λ well. well ≡ is_well_formed6 code value.now) }
{
    match code {
        code::DNS_SERVERS => Ok(dns6_of(alloc, value)?.is_some()),
        code::DOMAIN_LIST => Ok(search6_of(alloc, value)?.is_some()),
        _ => Ok(false),
    }
}
