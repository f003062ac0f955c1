//! Items that go: what is over, and addresses that other hosts use.

ghost use Rattle.std.specs.Prelude.{◌≡◌, ◌≤◌, length, option_map, IfOk, OnErr, OnOk};
ghost use Rattle.lease6_text.specs.Leases.{ias_content, lease6_content};
ghost use Rattle.v6_client.specs.Calls.{pruned_lease};
ghost use Rattle.v6_client.specs.Clients.{kept_in, plea_content, plea_in};
ghost use Rattle.v6_items.specs.Items as own;
ghost use Rattle.v6_client.specs.Moves as moves;

use crate::leases::{Leases6, Plea6, duid_copied};
use lease6_text::{IaLease, Lease6};
use net_types::NoMemory;
use std::alloc::Global;
use v6_items::{
    Cause6, IaAsk, Parting6, Scope6, ias_asked, ias_lapsed, ias_of, pruned_ias, without,
};

/// The lease without the items that go.
fn thin(alloc: Global, cause: Cause6, kept: &mut Option<Lease6>) -> Result<(), NoMemory>
    ensures kept { OnOk result
        (option_map lease6_content kept.new
        ≡ option_map (moves.thinned_lease cause) (option_map lease6_content kept.old)) }
    ensures err { OnErr result (option_map lease6_content kept.new ≡ option_map lease6_content kept.old) }
{
    if let Some(lease) = kept {
        lease.ias = without(alloc, cause, &lease.ias)?;
    }
    Ok(())
}

/// The lease with the items alone that are asked for and aren't over.
fn prune_in(
    alloc: Global,
    at: u64,
    asks: &[IaAsk],
    kept: &mut Option<Lease6>,
) -> Result<(), NoMemory>
    ensures kept { OnOk result
        (option_map lease6_content kept.new
        ≡ option_map (pruned_lease at asks.now) (option_map lease6_content kept.old)) }
    ensures err { OnErr result (option_map lease6_content kept.new ≡ option_map lease6_content kept.old) }
{
    if let Some(lease) = kept {
        lease.ias = pruned_ias(alloc, at, &lease.ias, asks)?;
    }
    Ok(())
}

/// What a server is asked, without what is over.
fn plea_lapsed(
    alloc: Global,
    at: u64,
    ias: &[IaLease],
    plea: &mut Option<Plea6>,
) -> Result<(), NoMemory>
    ensures { OnOk result
        (option_map plea_content plea.new
        ≡ option_map (moves.plea_lapsed at (ias_content ias.now)) (option_map plea_content plea.old)) }
{
    if let Some(plea) = plea {
        plea.ias = ias_lapsed(alloc, at, ias, &plea.ias)?;
    }
    Ok(())
}

/// What is declined is told by what stands in each IA of the lease.
fn plea_by(alloc: Global, kept: &Option<Lease6>, asks: &[IaAsk]) -> Result<Option<Plea6>, NoMemory>
    requires { length asks.now ≤ 6 }
    ensures { IfOk result
        (λ plea. option_map plea_content plea
        ≡ option_map (moves.plea_by asks.now) (option_map lease6_content kept.now)) }
{
    match kept {
        Some(lease) => Ok(Some(Plea6 {
            server: duid_copied(alloc, &lease.server)?,
            ias: ias_asked(alloc, Scope6::All, &lease.ias, asks)?,
        })),
        None => Ok(None),
    }
}

impl Leases6 {
    /// Held items whose valid lifetime is over go. Where the last one goes the kept lease stays for the step to clear.
    pub(crate) fn lapse(
        &mut self,
        alloc: Global,
        at: u64,
        parting: Parting6,
    ) -> Result<(), NoMemory>
        ensures plea { OnOk result
            (plea_in self.new
            ≡ option_map (moves.plea_lapsed at (own.ias_of (kept_in self.old))) (plea_in self.old)) }
        ensures kept { OnOk result (kept_in self.new ≡ moves.kept_live at parting (kept_in self.old)) }
        ensures err { OnErr result (kept_in self.new ≡ kept_in self.old) }
    {
        plea_lapsed(alloc, at, ias_of(&self.kept), &mut self.plea)?;
        self.leave(alloc, Cause6::Lapse(at), parting)
    }

    /// Items go from the kept lease, unless none stays.
    pub(crate) fn leave(
        &mut self,
        alloc: Global,
        cause: Cause6,
        parting: Parting6,
    ) -> Result<(), NoMemory>
        ensures plea { OnOk result (plea_in self.new ≡ plea_in self.old) }
        ensures kept { OnOk result (kept_in self.new ≡ moves.kept_left cause parting (kept_in self.old)) }
        ensures err { OnErr result (kept_in self.new ≡ kept_in self.old) }
    {
        if !parting.stays {
            return Ok(());
        }
        thin(alloc, cause, &mut self.kept)
    }

    /// Of the kept lease only those items stay that are asked for and aren't over.
    pub(crate) fn prune(&mut self, alloc: Global, at: u64, asks: &[IaAsk]) -> Result<(), NoMemory>
        ensures plea { OnOk result (plea_in self.new ≡ plea_in self.old) }
        ensures kept { OnOk result (kept_in self.new ≡ option_map (pruned_lease at asks.now) (kept_in self.old)) }
        ensures err { OnErr result (kept_in self.new ≡ kept_in self.old) }
    {
        prune_in(alloc, at, asks, &mut self.kept)
    }

    /// A held address is declined, since another host uses it. Where the client wasn't declining before, what is
    /// declined is told from now on by what stood in each IA.
    pub(crate) fn decline(
        &mut self,
        alloc: Global,
        cause: Cause6,
        declining: bool,
        asks: &[IaAsk],
    ) -> Result<(), NoMemory>
        requires { length asks.now ≤ 6 }
        ensures plea { OnOk result
            (plea_in self.new ≡ moves.plea_with declining asks.now (kept_in self.old) (plea_in self.old)) }
        ensures kept { OnOk result (kept_in self.new ≡ option_map (moves.thinned_lease cause) (kept_in self.old)) }
        ensures err { OnErr result (kept_in self.new ≡ kept_in self.old) }
    {
        if !declining {
            self.plea = plea_by(alloc, &self.kept, asks)?;
        }
        thin(alloc, cause, &mut self.kept)
    }
}
