//! A turn of each interface that has something to do: how the rows for the host change, what is touched of the files,
//! and which jobs of hooks come of it.

ghost use Rattle.std.specs.Prelude.{◌≡◌, ◌≤◌, ◌*◌, ◌&&◌, ◌++◌, not, List, [], Some, is_some, length, map, IfOk, OnOk};
ghost use Rattle.net_types.specs.Moments.{IsMoment};
ghost use Rattle.world.specs.HookCalls.{job_of};
ghost use Rattle.world.specs.declared.rows.HostRow.{HostRow};
ghost use Rattle.settings.specs.Fitting.{FitsManaged};
ghost use Rattle.client_model.specs.IfaceTurns.{iface_turned};
ghost use Rattle.client_model.specs.Jobs.{jobs_along};
ghost use Rattle.client_model.specs.WantedRows.{wanted_rows};
ghost use Rattle.host_tables.specs.Unions.{Sums};
ghost use Rattle.iface_core.specs.Inputs.{turn_of};
ghost use Rattle.iface_core.specs.Looks.{looked};
ghost use Rattle.iface_core.specs.Outcomes.{Goes, asked_in};
ghost use Rattle.client_core.specs.declared.effects.Resolver.TheVariants.{Same};
ghost use Rattle.client_core.specs.Leading.{Leads, LeadsOn};
ghost use Rattle.client_core.specs.Resting.{busy_in};
ghost use Rattle.client_core.specs.Running.{IsRunning};
ghost use Rattle.client_core.specs.Stepping.{GoAll};
ghost use Rattle.client_core.specs.Touched.{KeepsUntouched, LeavesBut, either, may_keep, noted};

use crate::effects::{Changes, Resolver, Touched, note};
use crate::hook_jobs::make_jobs;
use crate::kept::{Kept, Renewed};
use client_model::Iface;
use host_tables::{Diff, Diffs};
use iface_core::{Outs, Turn, iface_kept, iface_turn};
use net_types::{IfIndex, Mac, NoMemory};
use std::alloc::Global;
use world::HookJob;

/// Whether an interface keeps a DHCPv4 lease, held or not.
fn keeps_lease(iface: &Iface) -> bool
    ensures { result ≡ is_some iface.now.dhcp4.kept }
{
    iface_kept(iface).is_some()
}

/// Whether a lease that was kept before isn't kept after.
fn is_lost(before: bool, after: bool) -> bool
    ensures { result ≡ (before && not after) }
{
    before && !after
}

/// A turn of an interface. Where nothing is new its rows are as before, what it tells the resolver, and its kept
/// leases; but one of DHCPv4 is given up where its address is declined. Each of its machines is asked once when it is
/// due, which is counted.
fn turn_iface(
    iface: &mut Iface,
    turn: &Turn<'_>,
    own: &[Mac],
    outs: &mut Outs,
    looks: &mut u64,
) -> Result<Changes, NoMemory>
    requires at { IsMoment turn.now.at }
    requires fits { FitsManaged iface.old.managed }
    ensures goes { OnOk result
        (Goes (iface_turned own.now (turn_of turn.now) iface.old) iface.new (asked_in outs.old)
        (asked_in outs.new)) }
    ensures leaves { IfOk result (λ changes. LeavesBut changes iface.old iface.new) }
    ensures counted { OnOk result (looks.new ≡ looked 3 looks.old) }
{
    let told = outs.news.len();
    let had_lease = keeps_lease(iface);
    iface_turn(iface, turn, own, outs, looks)?;
    let is_new = outs.news.len() > told;
    if is_new {
        return Ok(Changes::All);
    }
    let has_lease = keeps_lease(iface);
    let is_gone = is_lost(had_lease, has_lease);
    if is_gone {
        return Ok(Changes::Leases);
    }
    Ok(Changes::Nothing)
}

/// What came of a turn of all interfaces.
#[derive(Drop)]
pub struct AllTurned {
    /// What it touched of what goes into files.
    pub touched: Touched,
    /// How the rows changed that the host is to hold.
    pub rows: Diff,
    /// How many interfaces had a turn of their own.
    pub turns: usize,
    /// How often a machine was asked when it is due.
    pub looks: u64,
    /// How many of the interfaces brought other rows.
    pub changes: u64,
}

/// The same of the interfaces that had their turn so far.
#[derive(Drop)]
struct Walk {
    touched: Touched,
    rows: Diffs,
    changes: u64,
}

impl Walk {
    /// No interface had its turn.
    fn new(alloc: Global) -> Walk
        ensures touched { result.touched.ifaces.items ≡ [] }
        ensures resolver { result.touched.resolver ≡ Same }
        ensures rows { (places : List (List HostRow)) → Sums places places result.rows }
    {
        Walk {
            touched: Touched {
                ifaces: Vec::new(alloc),
                resolver: Resolver::Same,
            },
            rows: Diffs::none(alloc),
            changes: 0,
        }
    }

    /// How the rows changed, with one change more.
    fn lead_on(&mut self, change: &Diff) -> Result<(), NoMemory>
        ensures touched { self.new.touched ≡ self.old.touched }
        ensures rows { OnOk result (LeadsOn (Some change.now) self.old.rows self.new.rows) }
    {
        self.changes = self.changes.saturating_add(1);
        self.rows.add(change)
    }

    /// The interface of this index had its turn.
    fn add(&mut self, index: IfIndex, changes: Changes, renewed: Renewed) -> Result<(), NoMemory>
        ensures touched { OnOk result
            (self.new.touched.ifaces.items ≡ self.old.touched.ifaces.items ++ noted (may_keep changes) index) }
        ensures resolver { OnOk result (self.new.touched.resolver ≡ either self.old.touched.resolver renewed.resolver) }
        ensures rows { OnOk result (LeadsOn renewed.rows self.old.rows self.new.rows) }
    {
        note(&mut self.touched.ifaces, changes.may_keep(), index)?;
        self.touched.resolver = self.touched.resolver.or(renewed.resolver);
        match renewed.rows {
            None => Ok(()),
            Some(change) => self.lead_on(&change),
        }
    }
}

/// A turn of each interface that has something to do, in order, after which what is kept of it is up to date and what
/// it told hooks has become jobs. Of up to 64 interfaces, `turns` is how many have something to do, and `looks` six
/// times that.
pub fn turn_all(
    ifaces: &mut [Iface],
    kept: &mut Kept,
    turn: &Turn<'_>,
    own: &[Mac],
    outs: &mut Outs,
    jobs: &mut Vec<HookJob>,
) -> Result<AllTurned, NoMemory>
    requires at { IsMoment turn.now.at }
    requires running { IsRunning ifaces.old kept.old }
    requires told { (asked_in outs.old).told ≡ [] }
    ensures goes { OnOk result
        (GoAll (iface_turned own.now (turn_of turn.now)) ifaces.old ifaces.new (asked_in outs.old)
        (asked_in outs.new)) }
    ensures running { OnOk result (IsRunning ifaces.new kept.new) }
    ensures untouched { IfOk result (λ turned. KeepsUntouched turned.touched ifaces.old ifaces.new) }
    ensures jobs { OnOk result
        (map job_of jobs.new.items
        ≡ map job_of jobs.old.items
        ++ jobs_along [] ifaces.old (map (iface_turned own.now (turn_of turn.now)) ifaces.old)) }
    ensures leads { IfOk result (λ turned. Leads turned.rows (wanted_rows ifaces.old) (wanted_rows ifaces.new)) }
    ensures looks { IfOk result (λ turned. length ifaces.old ≤ 64 → turned.looks ≡ 6 * turned.turns) }
    ensures turns { IfOk result
        (λ turned. length ifaces.old ≤ 64 → turned.turns ≡ busy_in (turn_of turn.now) ifaces.old) }
    ensures at_most { IfOk result (λ turned. turned.turns ≤ length ifaces.old) }
{
    let alloc = *jobs.allocator();
    let busy = kept.take(turn);
    let mut walk = Walk::new(alloc);
    let mut turns = 0;
    let mut looks = 0;
    let mut place = busy.next_from(0, ifaces.len());
    'places: while place < ifaces.len() {
        let changes = turn_iface(&mut ifaces[place], turn, own, outs, &mut looks)?;
        let renewed = kept.renew(alloc, place, &ifaces[place], changes, &mut looks)?;
        walk.add(ifaces[place].managed.spec.index, changes, renewed)?;
        make_jobs(jobs, ifaces, outs)?;
        turns += 1;
        place = busy.next_from(place + 1, ifaces.len());
    }
    Ok(AllTurned {
        touched: walk.touched,
        rows: walk.rows.into_diff(alloc)?,
        turns,
        looks,
        changes: walk.changes,
    })
}
