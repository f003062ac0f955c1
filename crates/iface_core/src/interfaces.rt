//! A managed interface: how it opens, its carrier, and what it is told.
ghost use Rattle.std.specs.Prelude.{◌≡◌, IfOk, IfSome, OnOk, option_map};
ghost use Rattle.net_types.specs.Moments.{IsMoment};
ghost use Rattle.lease_text.specs.Bounds.{FitsLease};
ghost use Rattle.lease_text.specs.Leases.{lease_content};
ghost use Rattle.lease6_text.specs.Bounds.{FitsLease6};
ghost use Rattle.lease6_text.specs.Leases.{lease6_content};
ghost use Rattle.settings.specs.Fitting.{FitsManaged};
ghost use Rattle.world.specs.Rows.{IsInterface};
ghost use Rattle.ipv4ll.specs.Table.{held_in};
ghost use Rattle.v4_client.specs.Clients.{held_of};
ghost use Rattle.v4_client.specs.Moments.{earlier};
ghost use Rattle.v6_client.specs.Clients as client6;
ghost use Rattle.script_model.specs.IfaceSets.{is_in, is_up};
ghost use Rattle.client_model.specs.Fitting.{FitsBeginning};
ghost use Rattle.client_model.specs.IfaceSteps.{index_of};
ghost use Rattle.client_model.specs.Interfaces as run;
ghost use Rattle.iface_machines.specs.Beginnings.{beginning_of};
ghost use Rattle.iface_core.specs.Looks.{looked};
ghost use Rattle.iface_machines.specs.Outcomes.{Goes, asked_in};

use client_model::{Iface, TimedMachine};
use iface_machines::{
    Beginning, Outs, arm_unless_held, begin_dhcp4, begin_dhcp6, begin_local, client_of, client6_of,
    drop_dhcp4, drop_dhcp6, drop_local, rebind_dhcp4, rebind_dhcp6, stop_dhcp4, stop_dhcp6,
};
use ipv4ll::{ll_held, ll_off};
use lease_text::Lease4;
use lease6_text::Lease6;
use machine::Machine;
use net_types::{IfIndex, Ip4, NoMemory};
use settings::IfConf;
use std::alloc::{AllocError, Global};
use v4_client::{Tell, held4, kept4};
use v6_client::{held6, kept6};
use world::Begin;

/// Whether a set of interfaces has this one: bit `i - 1` is interface `i`.
pub fn contains(set: u64, index: IfIndex) -> bool
    requires { IsInterface index.number }
    ensures { result ≡ is_in set index.number }
{
    (set >> (index.number - 1)) % 2 == 1
}

/// Opens an interface, as a life begins.
pub fn iface_open(
    alloc: Global,
    beginning: Beginning,
    begin: Begin,
    outs: &mut Outs,
) -> Result<Iface, NoMemory>
    requires fits { FitsBeginning (beginning_of beginning) }
    requires at { IsMoment begin.at }
    ensures { IfOk result
        (λ iface. Goes (run.opened begin.up begin.at begin.salt (beginning_of beginning)) iface (asked_in outs.old)
        (asked_in outs.new)) }
{
    let index = beginning.managed.spec.index;
    let mut iface = rest(alloc, beginning)?;
    outs.tell_opened(&iface.managed, contains(begin.up, index))?;
    carry_at_opening(&mut iface, begin, outs)?;
    Ok(iface)
}

/// The carrier that there is at the opening comes.
fn carry_at_opening(iface: &mut Iface, begin: Begin, outs: &mut Outs) -> Result<(), NoMemory>
    requires at { IsMoment begin.at }
    requires fits { FitsManaged iface.old.managed }
    ensures { OnOk result
        (Goes (run.carrier_at_opening (is_up begin.up (index_of iface.old)) begin.at begin.salt iface.old) iface.new
        (asked_in outs.old) (asked_in outs.new)) }
{
    if contains(begin.up, iface.managed.spec.index) {
        gain_carrier(iface, begin.at, begin.salt, outs)
    } else {
        Ok(())
    }
}

/// An interface before its opening.
fn rest(alloc: Global, beginning: Beginning) -> Result<Iface, AllocError>
    requires { FitsBeginning (beginning_of beginning) }
    ensures { IfOk result (λ iface. iface ≡ run.resting (beginning_of beginning)) }
{
    let Beginning {
        managed,
        duid,
        kept4,
        kept6,
    } = beginning;
    let dhcp4 = client_of(alloc, &managed, &duid, kept4)?;
    let local = ll_off(managed.spec.index);
    let dhcp6 = client6_of(alloc, &managed, duid, kept6)?;
    Ok(Iface {
        managed,
        up: false,
        stopped: false,
        dhcp4,
        local,
        dhcp6,
    })
}

/// Machines that are off begin.
fn begin(iface: &mut Iface, at: u64, salt: u64, outs: &mut Outs) -> Result<(), NoMemory>
    requires at { IsMoment at }
    requires fits { FitsManaged iface.old.managed }
    ensures { OnOk result (Goes (run.begins at salt iface.old) iface.new (asked_in outs.old) (asked_in outs.new)) }
{
    begin_dhcp4(iface, at, salt, outs)?;
    begin_local(iface, at);
    begin_dhcp6(iface, at, salt, outs)
}

/// The machines are off, and nobody is told.
fn drop_machines(iface: &mut Iface, at: u64, salt: u64, outs: &mut Outs) -> Result<(), NoMemory>
    requires at { IsMoment at }
    requires fits { FitsManaged iface.old.managed }
    ensures { OnOk result
        (Goes (run.machines_drop at salt iface.old) iface.new (asked_in outs.old) (asked_in outs.new)) }
{
    drop_dhcp4(iface, at, salt, outs)?;
    drop_local(iface);
    drop_dhcp6(iface, at, salt, outs)
}

/// The machines stop; `tell` says whether the server of a held lease is told.
fn stop_machines(
    iface: &mut Iface,
    tell: Tell,
    at: u64,
    salt: u64,
    outs: &mut Outs,
) -> Result<(), NoMemory>
    requires at { IsMoment at }
    requires fits { FitsManaged iface.old.managed }
    ensures { OnOk result
        (Goes (run.machines_stop tell at salt iface.old) iface.new (asked_in outs.old) (asked_in outs.new)) }
{
    stop_dhcp4(iface, tell, at, salt, outs)?;
    drop_local(iface);
    stop_dhcp6(iface, tell, at, salt, outs)
}

fn gain_carrier(iface: &mut Iface, at: u64, salt: u64, outs: &mut Outs) -> Result<(), NoMemory>
    requires at { IsMoment at }
    requires fits { FitsManaged iface.old.managed }
    ensures { OnOk result
        (Goes (run.carrier_comes at salt iface.old) iface.new (asked_in outs.old) (asked_in outs.new)) }
{
    outs.tell_carrier_came(&iface.managed)?;
    iface.up = true;
    begin(iface, at, salt, outs)
}

fn lose_carrier(iface: &mut Iface, at: u64, salt: u64, outs: &mut Outs) -> Result<(), NoMemory>
    requires at { IsMoment at }
    requires fits { FitsManaged iface.old.managed }
    ensures { OnOk result
        (Goes (run.carrier_goes at salt iface.old) iface.new (asked_in outs.old) (asked_in outs.new)) }
{
    outs.tell_carrier_went(&iface.managed)?;
    iface.up = false;
    drop_machines(iface, at, salt, outs)
}

/// The carrier comes or goes. One that is as before changes nothing.
pub fn carry(
    iface: &mut Iface,
    up: bool,
    at: u64,
    salt: u64,
    outs: &mut Outs,
) -> Result<(), NoMemory>
    requires at { IsMoment at }
    requires fits { FitsManaged iface.old.managed }
    ensures { OnOk result (Goes (run.carried at salt up iface.old) iface.new (asked_in outs.old) (asked_in outs.new)) }
{
    match (up, iface.up) {
        (true, true) => Ok(()),
        (true, false) => gain_carrier(iface, at, salt, outs),
        (false, true) => lose_carrier(iface, at, salt, outs),
        (false, false) => Ok(()),
    }
}

/// What the machines hold is given back, and they are off.
pub fn release(iface: &mut Iface, at: u64, salt: u64, outs: &mut Outs) -> Result<(), NoMemory>
    requires at { IsMoment at }
    requires fits { FitsManaged iface.old.managed }
    ensures { OnOk result (Goes (run.released at salt iface.old) iface.new (asked_in outs.old) (asked_in outs.new)) }
{
    outs.tell_released()?;
    stop_machines(iface, Tell::Server, at, salt, outs)
}

fn rebind_machines(iface: &mut Iface, at: u64, salt: u64, outs: &mut Outs) -> Result<(), NoMemory>
    requires at { IsMoment at }
    requires fits { FitsManaged iface.old.managed }
    ensures { OnOk result
        (Goes (run.machines_rebind at salt iface.old) iface.new (asked_in outs.old) (asked_in outs.new)) }
{
    rebind_dhcp4(iface, at, salt, outs)?;
    arm_unless_held(iface, at);
    rebind_dhcp6(iface, at, salt, outs)
}

/// A lease that is held is confirmed anew, and machines that are off begin, where there is carrier.
pub fn rebind(iface: &mut Iface, at: u64, salt: u64, outs: &mut Outs) -> Result<(), NoMemory>
    requires at { IsMoment at }
    requires fits { FitsManaged iface.old.managed }
    ensures { OnOk result (Goes (run.rebound at salt iface.old) iface.new (asked_in outs.old) (asked_in outs.new)) }
{
    if iface.up {
        rebind_machines(iface, at, salt, outs)
    } else {
        Ok(())
    }
}

/// Whether the server of a held lease is told at a stop.
fn told_at_stop(conf: &IfConf) -> Tell
    ensures { result ≡ run.told_at_stop conf.now }
{
    if conf.flags.release {
        Tell::Server
    } else {
        Tell::Nobody
    }
}

/// Nothing is in force after a stop, which is told last.
pub fn halt(iface: &mut Iface, at: u64, salt: u64, outs: &mut Outs) -> Result<(), NoMemory>
    requires at { IsMoment at }
    requires fits { FitsManaged iface.old.managed }
    ensures { OnOk result (Goes (run.halted at salt iface.old) iface.new (asked_in outs.old) (asked_in outs.new)) }
{
    iface.stopped = true;
    let tell = told_at_stop(&iface.managed.conf);
    stop_machines(iface, tell, at, salt, outs)?;
    outs.tell_stopped(iface)
}

/// The next moment at which a machine of the interface is due.
pub fn machine_due(iface: &Iface, machine: TimedMachine) -> Option<u64>
    ensures { result ≡ run.machine_due machine iface.now }
{
    match machine {
        TimedMachine::Dhcp4 => iface.dhcp4.due(),
        TimedMachine::LinkLocal => iface.local.due(),
        TimedMachine::Dhcp6 => iface.dhcp6.due(),
    }
}

/// The next moment at which a machine of the interface is due. That it was asked for is counted.
pub fn look(iface: &Iface, machine: TimedMachine, looks: &mut u64) -> Option<u64>
    ensures due { result ≡ run.machine_due machine iface.now }
    ensures counted { looks.new ≡ looked 1 looks.old }
{
    *looks = looks.saturating_add(1);
    machine_due(iface, machine)
}

/// The earlier of two moments, where there are any.
pub fn earlier_of(a: Option<u64>, b: Option<u64>) -> Option<u64>
    ensures { result ≡ earlier a b }
{
    match (a, b) {
        (Some(a), Some(b)) => Some(a.min(b)),
        (Some(a), None) => Some(a),
        (None, b) => b,
    }
}

/// The next moment at which some machine of the interface is due.
pub fn iface_due(iface: &Iface) -> Option<u64>
    ensures { result ≡ run.iface_due iface.now }
{
    let due = earlier_of(
        machine_due(iface, TimedMachine::Dhcp4),
        machine_due(iface, TimedMachine::LinkLocal),
    );
    earlier_of(due, machine_due(iface, TimedMachine::Dhcp6))
}

/// The link-local address that the interface holds.
pub fn iface_held(iface: &Iface) -> Option<Ip4>
    ensures { result ≡ held_in iface.now.local.state }
{
    ll_held(&iface.local)
}

/// The DHCPv4 lease that the interface holds.
pub fn iface_lease(iface: &Iface) -> Option<&Lease4>
    ensures value { option_map (λ lease. lease_content lease.now) result ≡ held_of iface.now.dhcp4 }
    ensures fits { IfSome (option_map (λ lease. lease_content lease.now) result) FitsLease }
{
    held4(&iface.dhcp4)
}

/// The DHCPv4 lease that the interface keeps for its next start, held or not.
pub fn iface_kept(iface: &Iface) -> Option<&Lease4>
    ensures value { option_map (λ lease. lease_content lease.now) result ≡ iface.now.dhcp4.kept }
    ensures fits { IfSome (option_map (λ lease. lease_content lease.now) result) FitsLease }
{
    kept4(&iface.dhcp4)
}

/// The DHCPv6 lease that the interface holds.
pub fn iface_lease6(iface: &Iface) -> Option<&Lease6>
    ensures value { option_map (λ lease. lease6_content lease.now) result ≡ client6.held_of iface.now.dhcp6 }
    ensures fits { IfSome (option_map (λ lease. lease6_content lease.now) result) FitsLease6 }
{
    held6(&iface.dhcp6)
}

/// The DHCPv6 lease that the interface keeps for its next start, held or not.
pub fn iface_kept6(iface: &Iface) -> Option<&Lease6>
    ensures value { option_map (λ lease. lease6_content lease.now) result ≡ iface.now.dhcp6.kept }
    ensures fits { IfSome (option_map (λ lease. lease6_content lease.now) result) FitsLease6 }
{
    kept6(&iface.dhcp6)
}
