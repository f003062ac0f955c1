//! The DHCPv6 leases that files keep.

ghost use Rattle.std.specs.Prelude.{◌≡◌, IfOk, IfSome, option_map};
ghost use Rattle.world.specs.StoreCalls.{Found};
ghost use Rattle.lease6_text.specs.Bounds.{HasText6};
ghost use Rattle.lease6_text.specs.Leases.{lease6_content};
ghost use Rattle.client_model.specs.KeptLeases6.{lease6_spelled, own_lease6, kept6_by};

use crate::leases4::is_own;
use client_model::kept_texts_are_leases6;
use lease6_text::{Lease6, read_lease6};
use net_types::{IfSpec, NoMemory, TextFault};
use std::alloc::Global;

/// The lease that a text spells.
#[tactic(auto, using(crate::proofs::SpelledLeases6::spelled_some6, crate::proofs::SpelledLeases6::spelled_none6, crate::proofs::SpelledLeases6::spelled_fits6))]
fn lease_of(alloc: Global, text: &[u8]) -> Result<Option<Lease6>, NoMemory>
    ensures lease { IfOk result (λ lease. option_map lease6_content lease ≡ lease6_spelled text.now) }
    ensures fits { IfOk result (λ lease. IfSome (option_map lease6_content lease) HasText6) }
{
    kept_texts_are_leases6();
    match read_lease6(alloc, text) {
        Ok(lease) => Ok(Some(lease)),
        Err(TextFault::Bad { .. }) => Ok(None),
        Err(TextFault::NoMemory) => Err(NoMemory),
    }
}

/// A lease of this interface. That of another, or of another hardware address, counts as none.
fn own_lease(spec: &IfSpec, lease: Lease6) -> Option<Lease6>
    requires { HasText6 (lease6_content lease) }
    ensures own { option_map lease6_content result ≡ own_lease6 spec.now (lease6_content lease) }
    ensures fits { IfSome (option_map lease6_content result) HasText6 }
{
    if is_own(spec, &lease.name, lease.origin) {
        Some(lease)
    } else {
        None
    }
}

/// The lease that the text of a file keeps for an interface. Another text keeps none (RFC 8415, section 18.2.12).
#[tactic(auto, using(crate::proofs::SpelledLeases6::none_kept6, crate::proofs::SpelledLeases6::one_kept6))]
pub fn kept6_in(alloc: Global, spec: &IfSpec, text: &[u8]) -> Result<Option<Lease6>, NoMemory>
    ensures kept { IfOk result (λ kept. option_map lease6_content kept ≡ kept6_by spec.now (Found text.now)) }
    ensures fits { IfOk result (λ kept. IfSome (option_map lease6_content kept) HasText6) }
{
    match lease_of(alloc, text)? {
        None => Ok(None),
        Some(lease) => Ok(own_lease(spec, lease)),
    }
}
