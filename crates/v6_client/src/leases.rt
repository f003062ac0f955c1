//! What a client has in memory beside its state: the lease that is kept, and what it asks a server that isn't asked for
//! held items.

ghost use Rattle.std.specs.Prelude.{◌≡◌, ◌≤◌, length, map, true, option_map, IfOk, OnErr, OnOk};
ghost use Rattle.v6_message.specs.Requests.{asked_content};
ghost use Rattle.lease6_text.specs.Leases.{ias_content, lease6_content};

use lease6_text::{IaLease, Lease6, copied_values};
use net_types::NoMemory;
use std::alloc::{AllocError, Global};
use v6_message::IaAsked;
use v6_options::Duid;

/// What a server is asked. In Soliciting and Requesting `ias` is what the server offered. In Declining it is what stood
/// in each IA before: what is declined, and what is held.
#[derive(Drop)]
pub struct Plea6 {
    pub server: Duid,
    pub ias: Vec<IaAsked>,
    ghost few: { length ias.items ≤ 6 },
}

#[derive(Drop)]
pub(crate) struct Leases6 {
    /// The lease that is kept for the next start; where items are held it is the one that is held.
    pub kept: Option<Lease6>,
    pub plea: Option<Plea6>,
}

/// The DUID of these bytes.
pub(crate) fn duid_of(alloc: Global, bytes: &[u8]) -> Result<Duid, NoMemory>
    requires least { 2 ≤ length bytes.now }
    requires most { length bytes.now ≤ 130 }
    ensures { IfOk result (λ duid. duid.bytes.items ≡ bytes.now) }
{
    match Duid::new(alloc, bytes)? {
        Some(duid) => Ok(duid),
        None => unreachable!(),
    }
}

/// A copy of a DUID.
pub(crate) fn duid_copied(alloc: Global, duid: &Duid) -> Result<Duid, NoMemory>
    ensures { IfOk result (λ copy. copy.bytes.items ≡ duid.now.bytes.items) }
{
    duid_of(alloc, duid.as_slice())
}

fn ias_copied(alloc: Global, ias: &[IaLease]) -> Result<Vec<IaLease>, AllocError>
    ensures { IfOk result (λ all. ias_content all.items ≡ ias_content ias.now) }
{
    let mut all = Vec::with_capacity(alloc, ias.len())?;
    for ia in ias {
        all.push(IaLease {
            kind: ia.kind,
            iaid: ia.iaid,
            items: ia.items.to_vec(alloc)?,
        })?;
    }
    Ok(all)
}

fn lease_copied(alloc: Global, lease: &Lease6) -> Result<Lease6, NoMemory>
    ensures { IfOk result (λ copy. lease6_content copy ≡ lease6_content lease.now) }
{
    Ok(Lease6 {
        origin: lease.origin,
        name: lease.name,
        server: duid_copied(alloc, &lease.server)?,
        t1: lease.t1,
        t2: lease.t2,
        ias: ias_copied(alloc, &lease.ias)?,
        values: copied_values(alloc, &lease.values)?,
    })
}

/// A copy of a lease that there may be.
pub(crate) fn kept_copied(alloc: Global, kept: &Option<Lease6>) -> Result<Option<Lease6>, NoMemory>
    ensures { IfOk result (λ copy. option_map lease6_content copy ≡ option_map lease6_content kept.now) }
{
    match kept {
        Some(lease) => Ok(Some(lease_copied(alloc, lease)?)),
        None => Ok(None),
    }
}
