//! The DHCPv4 leases that files keep.

ghost use Rattle.std.specs.Prelude.{◌≡◌, IfOk, IfSome, option_map};
ghost use Rattle.world.specs.StoreCalls.{Found};
ghost use Rattle.lease_text.specs.Bounds.{FitsLease};
ghost use Rattle.lease_text.specs.Leases.{lease_content};
ghost use Rattle.client_model.specs.KeptLeases.{is_granted_to, is_own, kept_by, lease_spelled, own_lease};

use crate::names::is_same;
use client_model::kept_texts_are_leases;
use lease_text::{Lease4, Origin, read_lease4};
use net_types::{IfSpec, Mac, Name, NoMemory, TextFault};
use std::alloc::Global;

/// The lease that a text spells.
#[tactic(auto, using(crate::proofs::SpelledLeases::spelled_some, crate::proofs::SpelledLeases::spelled_none, crate::proofs::SpelledLeases::spelled_fits))]
fn lease_of(alloc: Global, text: &[u8]) -> Result<Option<Lease4>, NoMemory>
    ensures lease { IfOk result (λ lease. option_map lease_content lease ≡ lease_spelled text.now) }
    ensures fits { IfOk result (λ lease. IfSome (option_map lease_content lease) FitsLease) }
{
    kept_texts_are_leases();
    match read_lease4(alloc, text) {
        Ok(lease) => Ok(Some(lease)),
        Err(TextFault::Bad { .. }) => Ok(None),
        Err(TextFault::NoMemory) => Err(NoMemory),
    }
}

/// Whether what comes from there was granted to a hardware address. What doesn't tell may have been.
fn is_granted_to(mac: Mac, origin: Option<Origin>) -> bool
    ensures { result ≡ is_granted_to mac origin }
{
    match origin {
        None => true,
        Some(origin) => origin.mac == mac,
    }
}

/// Whether a lease with this name and origin is one of the interface.
pub(crate) fn is_own(spec: &IfSpec, name: &Name, origin: Option<Origin>) -> bool
    ensures { result ≡ is_own spec.now name.now origin }
{
    is_same(name, &spec.name) && is_granted_to(spec.mac, origin)
}

/// A lease of this interface. That of another counts as none.
fn own_lease(spec: &IfSpec, lease: Lease4) -> Option<Lease4>
    requires { FitsLease (lease_content lease) }
    ensures own { option_map lease_content result ≡ own_lease spec.now (lease_content lease) }
    ensures fits { IfSome (option_map lease_content result) FitsLease }
{
    if is_own(spec, &lease.name, lease.origin) {
        Some(lease)
    } else {
        None
    }
}

/// The lease that the text of a file keeps for an interface. Another text keeps none (RFC 2131, section 3.2).
#[tactic(auto, using(crate::proofs::SpelledLeases::none_kept, crate::proofs::SpelledLeases::one_kept))]
pub fn kept4_in(alloc: Global, spec: &IfSpec, text: &[u8]) -> Result<Option<Lease4>, NoMemory>
    ensures kept { IfOk result (λ kept. option_map lease_content kept ≡ kept_by spec.now (Found text.now)) }
    ensures fits { IfOk result (λ kept. IfSome (option_map lease_content kept) FitsLease) }
{
    match lease_of(alloc, text)? {
        None => Ok(None),
        Some(lease) => Ok(own_lease(spec, lease)),
    }
}
