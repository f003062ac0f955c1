//! What becomes of the leases of a client in a step.

ghost use Rattle.std.specs.Prelude.{◌≡◌, is_some, option_map, IfOk, OnErr, OnOk};
ghost use Rattle.lease6_text.specs.Leases.{lease6_content};
ghost use Rattle.v6_client.specs.Calls.{has_origin};
ghost use Rattle.v6_client.specs.Clients.{kept_in, plea_in};
ghost use Rattle.v6_client.specs.Moves.{is_of_held, kept_after, old_of, plea_after};
ghost use Rattle.v6_client.specs.Saying as saying;

use crate::holding::pleads;
use crate::leases::{Leases6, kept_copied};
use crate::states::{Keep6, News6, State6, Step6};
use lease6_text::Lease6;
use net_types::NoMemory;
use std::alloc::Global;
use std::mem;

/// Whether the news is of a lease that was held.
fn is_of_held(news: News6) -> bool
    ensures { result ≡ is_of_held news }
{
    match news {
        News6::Nothing | News6::Bound | News6::Reboot | News6::Changed => false,
        News6::Renew | News6::Rebind | News6::Expire | News6::Stop => true,
    }
}

/// The lease that goes, where the news is of it.
fn old_of(news: News6, held: bool, gone: Option<Lease6>) -> Option<Lease6>
    ensures { option_map lease6_content result ≡ old_of news held (option_map lease6_content gone) }
{
    if is_of_held(news) && held {
        return gone;
    }
    None
}

/// A copy of a lease that stays, where the news is of it.
fn old_copied(
    alloc: Global,
    news: News6,
    held: bool,
    kept: &Option<Lease6>,
) -> Result<Option<Lease6>, NoMemory>
    ensures { IfOk result
        (λ old. option_map lease6_content old ≡ old_of news held (option_map lease6_content kept.now)) }
{
    if is_of_held(news) && held {
        return kept_copied(alloc, kept);
    }
    Ok(None)
}

impl Leases6 {
    /// What becomes of the kept lease. Answers the lease that was held before, where the news is of it.
    fn keep(
        &mut self,
        alloc: Global,
        held: bool,
        step: Step6,
        fresh: Option<Lease6>,
    ) -> Result<Option<Lease6>, NoMemory>
        ensures kept { OnOk result
            (kept_in self.new ≡ kept_after step.keep (option_map lease6_content fresh) (kept_in self.old)) }
        ensures plea { OnOk result (plea_in self.new ≡ plea_in self.old) }
        ensures old { IfOk result (λ old. option_map lease6_content old ≡ old_of step.news held (kept_in self.old)) }
        ensures err { OnErr result (kept_in self.new ≡ kept_in self.old) }
    {
        match step.keep {
            Keep6::Stays => old_copied(alloc, step.news, held, &self.kept),
            Keep6::Clears => Ok(old_of(step.news, held, self.kept.take())),
            Keep6::Takes => {
                let gone = mem::replace(&mut self.kept, fresh);
                Ok(old_of(step.news, held, gone))
            }
        }
    }

    /// What a server is asked lasts as long as it is asked.
    fn end_plea(&mut self, state: State6)
        ensures kept { kept_in self.new ≡ kept_in self.old }
        ensures plea { plea_in self.new ≡ plea_after state (plea_in self.old) }
    {
        if !pleads(state) {
            self.plea = None;
        }
    }

    /// Goes a step of the table. Answers the lease that was held before, where the news is of it.
    pub(crate) fn go(
        &mut self,
        alloc: Global,
        held: bool,
        step: Step6,
        fresh: Option<Lease6>,
    ) -> Result<Option<Lease6>, NoMemory>
        ensures kept { OnOk result
            (kept_in self.new ≡ kept_after step.keep (option_map lease6_content fresh) (kept_in self.old)) }
        ensures plea { OnOk result (plea_in self.new ≡ plea_after step.state (plea_in self.old)) }
        ensures old { IfOk result (λ old. option_map lease6_content old ≡ old_of step.news held (kept_in self.old)) }
        ensures err { OnErr result (kept_in self.new ≡ kept_in self.old) }
    {
        let old = self.keep(alloc, held, step, fresh)?;
        self.end_plea(step.state);
        Ok(old)
    }

    /// Whether there is a kept lease.
    pub(crate) fn is_kept(&self) -> bool
        ensures { result ≡ is_some (kept_in self.now) }
    {
        match &self.kept {
            Some(_) => true,
            None => false,
        }
    }

    /// Whether the kept lease tells its origin.
    pub(crate) fn has_origin(&self) -> bool
        ensures { result ≡ has_origin (kept_in self.now) }
    {
        match &self.kept {
            Some(lease) => lease.origin.is_some(),
            None => false,
        }
    }

    /// The server of the kept lease.
    pub(crate) fn leased_by(&self) -> Option<&[u8]>
        ensures { option_map (λ v. v.now) result ≡ saying.lease_server (kept_in self.now) }
    {
        match &self.kept {
            Some(lease) => Some(lease.server.as_slice()),
            None => None,
        }
    }

    /// The server that is asked.
    pub(crate) fn pleaded_with(&self) -> Option<&[u8]>
        ensures { option_map (λ v. v.now) result ≡ saying.plea_server (plea_in self.now) }
    {
        match &self.plea {
            Some(plea) => Some(plea.server.as_slice()),
            None => None,
        }
    }
}
