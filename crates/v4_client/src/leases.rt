//! The leases of a client, and what becomes of them in a step.

ghost use Rattle.std.specs.Prelude.{◌≡◌, true, ◌&&◌, option_map, IfOk, OnErr, OnOk};
ghost use Rattle.lease_text.specs.Leases.{lease_content};
ghost use Rattle.v4_client.specs.Clients.{fresh_in, is_held, kept_in};
ghost use Rattle.v4_client.specs.Moves.{fresh_after, is_copied, is_of_held, kept_after, old_of};

use crate::states::{Keep4, News4, State4, Step4};
use lease_text::{Lease4, Value};
use net_types::{Name, NoMemory};
use std::alloc::Global;
use std::mem;

#[derive(Drop)]
pub(crate) struct Leases4 {
    /// The lease that is kept for the next start; where one is held it is that one.
    pub kept: Option<Lease4>,
    /// The values of the lease that is checked.
    pub fresh: Vec<Value>,
}

/// Whether a lease is held in the state.
pub(crate) fn is_held(state: State4) -> bool
    ensures { result ≡ is_held state }
{
    match state {
        State4::Bound { .. } | State4::Renewing { .. } | State4::Rebinding { .. } => true,
        State4::Rebooting { stands, .. } | State4::Checking { stands, .. } => stands.is_some(),
        State4::Off
        | State4::Init { .. }
        | State4::Selecting { .. }
        | State4::Requesting { .. }
        | State4::Waiting { .. } => false,
    }
}

/// Whether the news is of a lease that was held.
fn is_of_held(news: News4) -> bool
    ensures { result ≡ is_of_held news }
{
    match news {
        News4::Nothing | News4::Bound | News4::Reboot => false,
        News4::Renew | News4::Rebind | News4::Nak | News4::Expire | News4::Stop => true,
    }
}

/// The lease that goes, where the news is of it.
fn old_of(news: News4, state: State4, gone: Option<Lease4>) -> Option<Lease4>
    ensures { option_map lease_content result ≡ old_of news (is_held state) (option_map lease_content gone) }
{
    if is_of_held(news) && is_held(state) {
        return gone;
    }
    None
}

/// A copy of a lease that stays, where the news is of it.
fn old_copied(
    alloc: Global,
    news: News4,
    state: State4,
    kept: &Option<Lease4>,
) -> Result<Option<Lease4>, NoMemory>
    ensures memory { OnErr result ((is_of_held news && is_held state) ≡ true) }
    ensures old { IfOk result
        (λ old. option_map lease_content old ≡ old_of news (is_held state) (option_map lease_content kept.now)) }
{
    if !(is_of_held(news) && is_held(state)) {
        return Ok(None);
    }
    match kept {
        Some(lease) => Ok(Some(lease.copied(alloc)?)),
        None => Ok(None),
    }
}

impl Leases4 {
    /// What becomes of the leases in a step from the state. Answers the lease that was held before, where the news is
    /// of it. Memory is wanted for a lease that stays kept and is told alone. Without it nothing changes.
    pub(crate) fn keep(
        &mut self,
        alloc: Global,
        name: Name,
        state: State4,
        step: &Step4,
    ) -> Result<Option<Lease4>, NoMemory>
        ensures kept { OnOk result
            (kept_in self.new ≡ kept_after step.now.keep name (fresh_in self.old) (kept_in self.old)) }
        ensures fresh { OnOk result (fresh_in self.new ≡ fresh_after step.now.keep (fresh_in self.old)) }
        ensures old { IfOk result
            (λ old. option_map lease_content old ≡ old_of step.now.news (is_held state) (kept_in self.old)) }
        ensures err { OnErr result (self.new ≡ self.old) }
        ensures memory { OnErr result (is_copied step.now (is_held state) ≡ true) }
    {
        match step.keep {
            Keep4::Stays => old_copied(alloc, step.news, state, &self.kept),
            Keep4::Clears => Ok(old_of(step.news, state, self.kept.take())),
            Keep4::Takes(terms) => {
                let values = mem::replace(&mut self.fresh, Vec::new(alloc));
                let lease = Lease4::new(name, terms, values);
                let gone = mem::replace(&mut self.kept, Some(lease));
                Ok(old_of(step.news, state, gone))
            }
        }
    }
}
