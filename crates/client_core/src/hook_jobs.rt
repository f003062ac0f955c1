//! The jobs of hooks (dhcpcd-run-hooks(8)): those that interfaces tell of themselves, and those of the interfaces that
//! share a prefix.

ghost use Rattle.std.specs.Prelude.{◌≡◌, ◌==◌, ◌++◌, [], find, flat_map, map, IfOk, OnOk};
ghost use Rattle.std.specs.Option.{option_copied, option_to_list};
ghost use Rattle.world.specs.HookCalls.{job_of};
ghost use Rattle.client_model.specs.Fitting.{AreIfaces};
ghost use Rattle.client_model.specs.IfaceSteps.{index_of};
ghost use Rattle.client_model.specs.Jobs.{jobs_among, shared_jobs};
ghost use Rattle.iface_core.specs.Outcomes.{asked_in, told_content};

use client_model::Iface;
use hook_env::Held;
use iface_core::{Outs, Told, event_job};
use net_types::{IfIndex, Net6, NoMemory};
use std::alloc::{AllocError, Global};
use std::mem;
use world::{HookJob, Reason};

/// The interface of this number.
pub fn iface_of(ifaces: &[Iface], index: IfIndex) -> Option<&Iface>
    ensures { option_copied result ≡ find (λ iface. index_of iface == index.number) ifaces.now }
{
    ifaces
        .iter()
        .find(|iface| iface.managed.spec.index == index)
}

/// The job of an interface that has this address out of a prefix, with the carrier that it has now.
fn shared_job(
    alloc: Global,
    ifaces: &[Iface],
    index: IfIndex,
    net: Net6,
) -> Result<Option<HookJob>, NoMemory>
    requires { AreIfaces ifaces.now }
    ensures { IfOk result
        (λ made. map job_of (option_to_list made)
        ≡ shared_jobs net (find (λ iface. index_of iface == index.number) ifaces.now)) }
{
    let Some(iface) = iface_of(ifaces, index) else {
        return Ok(None);
    };
    event_job(
        alloc,
        Reason::Delegated6,
        &iface.managed,
        iface.up,
        Held::Nothing,
        Held::Delegated(net),
    )
}

/// Appends a job, where there is one.
fn push_some(jobs: &mut Vec<HookJob>, made: Option<HookJob>) -> Result<(), AllocError>
    ensures { OnOk result (map job_of jobs.new.items ≡ map job_of jobs.old.items ++ map job_of (option_to_list made)) }
{
    if let Some(job) = made {
        jobs.push(job)?;
    }
    Ok(())
}

/// Appends the job of what an interface told, where there is one.
fn push_told(jobs: &mut Vec<HookJob>, ifaces: &[Iface], told: Told) -> Result<(), NoMemory>
    requires { AreIfaces ifaces.now }
    ensures { OnOk result
        (map job_of jobs.new.items ≡ map job_of jobs.old.items ++ jobs_among ifaces.now (told_content told)) }
{
    match told {
        Told::Own(job) => {
            jobs.push(job)?;
            Ok(())
        }
        Told::Shared { iface, net } => {
            let job = shared_job(*jobs.allocator(), ifaces, iface, net)?;
            push_some(jobs, job)?;
            Ok(())
        }
    }
}

fn push_all_told(jobs: &mut Vec<HookJob>, ifaces: &[Iface], all: Vec<Told>) -> Result<(), NoMemory>
    requires { AreIfaces ifaces.now }
    ensures { OnOk result
        (map job_of jobs.new.items
        ≡ map job_of jobs.old.items ++ flat_map (jobs_among ifaces.now) (map told_content all.items)) }
{
    for told in all {
        push_told(jobs, ifaces, told)?;
    }
    Ok(())
}

/// Appends the jobs of what was told, while the interfaces are these. Nothing is told any more then.
pub fn make_jobs(jobs: &mut Vec<HookJob>, ifaces: &[Iface], outs: &mut Outs) -> Result<(), NoMemory>
    requires { AreIfaces ifaces.now }
    ensures jobs { OnOk result
        (map job_of jobs.new.items
        ≡ map job_of jobs.old.items ++ flat_map (jobs_among ifaces.now) (asked_in outs.old).told) }
    ensures outs { OnOk result (asked_in outs.new ≡ record (asked_in outs.old) { told = [] }) }
{
    let told = mem::replace(&mut outs.told, Vec::new(*jobs.allocator()));
    push_all_told(jobs, ifaces, told)
}
