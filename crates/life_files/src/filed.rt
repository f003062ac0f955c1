//! The leases that files keep.
ghost use Rattle.std.specs.Prelude.{◌≡◌, IfOk, IfSome, option_and_then, option_map};
ghost use Rattle.lease_file.specs.FileReads.{got_reading};
ghost use Rattle.lease_text.specs.Bounds.{FitsLease};
ghost use Rattle.lease_text.specs.Leases.{lease_content};
ghost use Rattle.lease6_text.specs.Bounds.{HasText6};
ghost use Rattle.lease6_text.specs.Leases.{lease6_content};
ghost use Rattle.client_model.specs.KeptLeases.{kept_by};
ghost use Rattle.client_model.specs.KeptLeases6.{kept6_by};

use kept_files::{kept4_in, kept6_in};
use lease_file::Got;
use lease_text::Lease4;
use lease6_text::Lease6;
use net_types::{IfSpec, NoMemory};
use std::alloc::Global;

/// The DHCPv4 lease with which an interface begins, by what reading its file gave. Nothing is read where DHCPv4
/// doesn't run. A file that isn't there, couldn't be read, or has another text keeps none.
pub fn first_lease(
    alloc: Global,
    spec: &IfSpec,
    read: &Option<Got>,
) -> Result<Option<Lease4>, NoMemory>
    ensures kept { IfOk result
        (λ kept. option_map lease_content kept
        ≡ option_and_then (kept_by spec.now) (option_map got_reading read.now)) }
    ensures fits { IfOk result (λ kept. IfSome (option_map lease_content kept) FitsLease) }
{
    match read {
        Some(Got::Text(text)) => kept4_in(alloc, spec, text),
        Some(Got::Missing) => Ok(None),
        Some(Got::Unread) => Ok(None),
        None => Ok(None),
    }
}

/// The DHCPv6 lease, alike.
pub fn first_lease6(
    alloc: Global,
    spec: &IfSpec,
    read: &Option<Got>,
) -> Result<Option<Lease6>, NoMemory>
    ensures kept { IfOk result
        (λ kept. option_map lease6_content kept
        ≡ option_and_then (kept6_by spec.now) (option_map got_reading read.now)) }
    ensures fits { IfOk result (λ kept. IfSome (option_map lease6_content kept) HasText6) }
{
    match read {
        Some(Got::Text(text)) => kept6_in(alloc, spec, text),
        Some(Got::Missing) => Ok(None),
        Some(Got::Unread) => Ok(None),
        None => Ok(None),
    }
}
