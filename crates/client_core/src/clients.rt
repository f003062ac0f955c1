//! The client over all managed interfaces, from its opening through its turns, and what is read of it: the rows it
//! wants, the leases it keeps, the text for the resolver, and when it is next due.

ghost use Rattle.std.specs.Prelude.{◌≡◌, ◌≤◌, ◌*◌, ◌++◌, [], length, IfOk, IfSome, map, option_map};
ghost use Rattle.std.specs.List.{AllByRecursion};
ghost use Rattle.std.specs.String.{string_bytes};
ghost use Rattle.net_types.specs.Moments.{IsMoment};
ghost use Rattle.machine.specs.Moment.{moment_of};
ghost use Rattle.world.specs.HookCalls.{job_of};
ghost use Rattle.world.specs.Rows.{IsRow};
ghost use Rattle.host_model.specs.HostTable.{InRowOrder};
ghost use Rattle.lease_text.specs.Bounds.{FitsLease};
ghost use Rattle.lease_text.specs.Leases.{lease_content};
ghost use Rattle.lease6_text.specs.Bounds.{FitsLease6};
ghost use Rattle.lease6_text.specs.Leases.{lease6_content};
ghost use Rattle.client_model.specs.Interfaces.{opened};
ghost use Rattle.client_model.specs.Fitting.{AreBeginnings, AreIfaces};
ghost use Rattle.client_model.specs.Clients.{Client, opening, client_turned, client_due, kept_lease, kept_lease6, rows_of};
ghost use Rattle.client_model.specs.Jobs.{jobs_along};
ghost use Rattle.client_model.specs.ResolverParts.{resolver_wanted};
ghost use Rattle.iface_core.specs.Beginnings.{beginning_of};
ghost use Rattle.iface_core.specs.Inputs.{turn_of};
ghost use Rattle.iface_core.specs.Outcomes.{asked_in, sends_in};
ghost use Rattle.client_core.specs.Leading.{Leads};
ghost use Rattle.client_core.specs.Resting.{busy_in};
ghost use Rattle.client_core.specs.Running.{IsRunning};
ghost use Rattle.client_core.specs.Stepping.{Steps, GoAll, IsOnInterface};
ghost use Rattle.client_core.specs.Touched.{KeepsUntouched};

use crate::dues::first_due;
use crate::effects::Touched;
use crate::hook_jobs::{iface_of, make_jobs};
use crate::kept::Kept;
use crate::told_parts::parts_text;
use crate::turning::turn_all;
use client_model::Iface;
use host_tables::Diff;
use iface_core::{Beginning, Outs, Turn, iface_kept, iface_kept6, iface_open};
use lease_text::Lease4;
use lease6_text::Lease6;
use machine::clamp_moment;
use net_types::{IfIndex, IfSpec, Mac, NoMemory};
use std::alloc::{AllocError, Global};
use std::marker::Model;
use world::{Begin, HookJob, HostRow};

/// The client over all managed interfaces, between two turns.
#[derive(Drop)]
pub struct Core {
    alloc: Global,
    own: Vec<Mac>,
    ifaces: Vec<Iface>,
    /// In a place of its own, since its tables of timers are large where the client is handed on.
    kept: Box<Kept>,
}

impl Model for Core {
    ghost Value = { Client };

    ghost view = { λ core. record { own = core.own.items; ifaces = core.ifaces.items } };

    ghost invariant = { λ core. IsRunning core.ifaces.items core.kept.value };
}

/// The interfaces as they are opened, one after another, and the jobs of hooks.
fn opened_ifaces(
    alloc: Global,
    beginnings: Vec<Beginning>,
    begin: Begin,
    outs: &mut Outs,
    jobs: &mut Vec<HookJob>,
) -> Result<Vec<Iface>, NoMemory>
    requires fit { AreBeginnings (map beginning_of beginnings.items) }
    requires told { (asked_in outs.old).told ≡ [] }
    ensures goes { IfOk result
        (λ all. GoAll (opened begin.up (moment_of begin.at) begin.salt)
        (map beginning_of beginnings.items) all.items (asked_in outs.old) (asked_in outs.new)) }
    ensures fit { IfOk result (λ all. AreIfaces all.items) }
    ensures jobs { IfOk result
        (λ _. map job_of jobs.new.items
        ≡ map job_of jobs.old.items
        ++ jobs_along [] []
        (map (opened begin.up (moment_of begin.at) begin.salt) (map beginning_of beginnings.items))) }
{
    let opening = Begin {
        at: clamp_moment(begin.at),
        ..begin
    };
    let mut ifaces = Vec::new(alloc);
    for beginning in beginnings {
        let iface = iface_open(alloc, beginning, opening, outs)?;
        ifaces.push(iface)?;
        make_jobs(jobs, &ifaces, outs)?;
    }
    Ok(ifaces)
}

/// The hardware addresses of the interfaces.
fn own_addresses(alloc: Global, specs: &[IfSpec]) -> Result<Vec<Mac>, AllocError>
    ensures { IfOk result (λ own. own.items ≡ map (λ spec. spec.mac) specs.now) }
{
    specs.iter().map(|spec| spec.mac).collect(alloc)
}

/// What the opening makes of the client, and what it asks.
#[derive(Drop)]
pub struct Opened {
    pub core: Core,
    /// What the outside is asked.
    pub outs: Outs,
    /// The jobs of hooks, in order.
    pub jobs: Vec<HookJob>,
}

/// Opens the client over its managed interfaces, as a life begins. `specs` are all interfaces, managed or not, whose
/// packets are known as the client's own.
pub fn core_open(
    alloc: Global,
    beginnings: Vec<Beginning>,
    specs: &[IfSpec],
    begin: Begin,
) -> Result<Opened, NoMemory>
    requires { AreBeginnings (map beginning_of beginnings.items) }
    ensures steps { IfOk result
        (λ done. Steps (opening (map beginning_of beginnings.items) specs.now begin) done.core
        (asked_in done.outs)) }
    ensures jobs { IfOk result
        (λ done. map job_of done.jobs.items ≡ (opening (map beginning_of beginnings.items) specs.now begin).jobs) }
    ensures on_interfaces { IfOk result (λ done. AllByRecursion IsOnInterface (sends_in done.outs)) }
{
    let own = own_addresses(alloc, specs)?;
    let mut outs = Outs::new(alloc);
    let mut jobs = Vec::new(alloc);
    let ifaces = opened_ifaces(alloc, beginnings, begin, &mut outs, &mut jobs)?;
    let all = Kept::of(alloc, &ifaces)?;
    let kept = Box::new(alloc, all)?;
    let core = Core {
        alloc,
        own,
        ifaces,
        kept,
    };
    Ok(Opened { core, outs, jobs })
}

/// What a turn makes of the client, and what it asks.
#[derive(Drop)]
pub struct Stepped {
    pub core: Core,
    /// What the outside is asked.
    pub outs: Outs,
    /// The jobs of hooks, in order.
    pub jobs: Vec<HookJob>,
    /// What it touched of what goes into files.
    pub touched: Touched,
    /// How the rows changed that the host is to hold.
    pub rows: Diff,
    /// How often a machine was asked when it is due.
    pub looks: u64,
    /// How many of the interfaces brought other rows.
    pub changes: u64,
}

/// One turn: what comes of it, and what the outside is asked. Of up to 64 interfaces, `looks` is six times how many
/// have something to do.
pub fn step(core: Core, turn: Turn<'_>) -> Result<Stepped, NoMemory>
    requires { IsMoment turn.at }
    ensures steps { IfOk result
        (λ done. Steps (client_turned (turn_of turn.entry) core) done.core (asked_in done.outs)) }
    ensures jobs { IfOk result (λ done. map job_of done.jobs.items ≡ (client_turned (turn_of turn.entry) core).jobs) }
    ensures on_interfaces { IfOk result (λ done. AllByRecursion IsOnInterface (sends_in done.outs)) }
    ensures untouched { IfOk result (λ done. KeepsUntouched done.touched core.ifaces done.core.ifaces) }
    ensures leads { IfOk result (λ done. Leads done.rows (rows_of core) (rows_of done.core)) }
    ensures looks { IfOk result
        (λ done. length core.ifaces ≤ 64 → done.looks ≡ 6 * busy_in (turn_of turn.entry) core.ifaces) }
{
    let Core {
        alloc,
        own,
        mut ifaces,
        mut kept,
    } = core;
    let mut outs = Outs::new(alloc);
    let mut jobs = Vec::new(alloc);
    let turned = turn_all(&mut ifaces, &mut kept, &turn, &own, &mut outs, &mut jobs)?;
    let core = Core {
        alloc,
        own,
        ifaces,
        kept,
    };
    Ok(Stepped {
        core,
        outs,
        jobs,
        touched: turned.touched,
        rows: turned.rows,
        looks: turned.looks,
        changes: turned.changes,
    })
}

/// The rows that the host is to hold on the managed interfaces, in row order.
pub fn rows(core: &Core) -> &[HostRow]
    ensures rows { result.now ≡ rows_of core.now }
    ensures fit { AllByRecursion IsRow result.now }
    ensures in_order { InRowOrder result.now }
{
    core.kept.tables.wanted()
}

/// The managed interfaces, in order of their numbers.
pub fn ifaces(core: &Core) -> &[Iface]
    ensures { result.now ≡ core.now.ifaces }
{
    &core.ifaces
}

/// The DHCPv4 lease that the interface of this number keeps for its next start, held or not.
pub fn kept4(core: &Core, index: IfIndex) -> Option<&Lease4>
    ensures value { option_map (λ lease. lease_content lease.now) result ≡ kept_lease index.number core.now.ifaces }
    ensures fits { IfSome (option_map (λ lease. lease_content lease.now) result) FitsLease }
{
    kept4_among(&core.ifaces, index)
}

fn kept4_among(ifaces: &[Iface], index: IfIndex) -> Option<&Lease4>
    ensures value { option_map (λ lease. lease_content lease.now) result ≡ kept_lease index.number ifaces.now }
    ensures fits { IfSome (option_map (λ lease. lease_content lease.now) result) FitsLease }
{
    let iface = iface_of(ifaces, index)?;
    iface_kept(iface)
}

/// The DHCPv6 lease that the interface of this number keeps for its next start, held or not.
pub fn kept6(core: &Core, index: IfIndex) -> Option<&Lease6>
    ensures value { option_map (λ lease. lease6_content lease.now) result ≡ kept_lease6 index.number core.now.ifaces }
    ensures fits { IfSome (option_map (λ lease. lease6_content lease.now) result) FitsLease6 }
{
    kept6_among(&core.ifaces, index)
}

fn kept6_among(ifaces: &[Iface], index: IfIndex) -> Option<&Lease6>
    ensures value { option_map (λ lease. lease6_content lease.now) result ≡ kept_lease6 index.number ifaces.now }
    ensures fits { IfSome (option_map (λ lease. lease6_content lease.now) result) FitsLease6 }
{
    let iface = iface_of(ifaces, index)?;
    iface_kept6(iface)
}

/// The text of the resolver's file (resolv.conf(5)); none where the interfaces tell the resolver nothing.
pub fn resolver_wanted(alloc: Global, core: &Core) -> Result<Option<String>, NoMemory>
    ensures { IfOk result (λ text. option_map string_bytes text ≡ resolver_wanted core.now.ifaces) }
{
    parts_text(alloc, &core.kept.parts)
}

/// The next moment at which a machine is due.
pub fn core_due(core: &Core) -> Option<u64>
    ensures { result ≡ client_due core.now.ifaces }
{
    first_due(&core.kept.dues, &core.ifaces)
}
