//! The link-local machine of an interface.
ghost use Rattle.std.specs.Prelude.{◌≡◌, OnOk, true};
ghost use Rattle.net_types.specs.Moments.{IsMoment};
ghost use Rattle.machine.specs.Moment.{is_due};
ghost use Rattle.settings.specs.Fitting.{FitsManaged};
ghost use Rattle.ipv4ll.specs.Table.{due_of, off};
ghost use Rattle.client_model.specs.LocalSteps as run;
ghost use Rattle.client_model.specs.Dhcp4Steps.{arms, begin_local};
ghost use Rattle.client_model.specs.IfaceSteps.{silent};
ghost use Rattle.iface_machines.specs.Outcomes.{Goes, asked_in};

use crate::dhcp4::{holds_lease, runs_dhcp4};
use crate::outs::Outs;
use client_model::Iface;
use frame_link::ArpView;
use ipv4ll::{Fallback, LinkLocal, Waits, ll_arm, ll_drop, ll_heard};
use machine::Machine;
use net_types::{Mac, NoMemory};
use settings::IfConf;

/// The milliseconds of a second.
const SECOND: u64 = 1000;

/// A link-local address is chosen where no static address is given, and it isn't forbidden.
fn chooses_local(conf: &IfConf) -> bool
    ensures { result ≡ run.chooses_local conf.now }
{
    !conf.flags.noipv4ll && !conf.flags.ipv6only && conf.address.is_none()
}

/// What follows where no lease comes in time.
fn fallback_of(conf: &IfConf) -> Fallback
    ensures { result ≡ run.fallback_of (run.chooses_local conf.now) }
{
    if chooses_local(conf) {
        Fallback::Choose
    } else {
        Fallback::GoOff
    }
}

/// A lease is waited for until the timeout; with a timeout of 0 for ever.
fn arm_for_lease(conf: &IfConf, local: &mut LinkLocal, at: u64)
    requires { IsMoment at }
    ensures { local.new ≡ run.armed_for_lease conf.now at local.old }
{
    if conf.times.timeout != 0 {
        let due = at + SECOND * u64::from(conf.times.timeout);
        ll_arm(local, due, Waits::ForLease, fallback_of(conf));
    }
}

/// Arms link-local where it is off: due when a lease was waited for long enough where DHCPv4 runs, else at once.
pub fn arm(conf: &IfConf, local: &mut LinkLocal, at: u64)
    requires { IsMoment at }
    ensures { local.new ≡ run.armed conf.now at local.old }
{
    if runs_dhcp4(conf) {
        arm_for_lease(conf, local, at);
    } else if chooses_local(conf) {
        ll_arm(local, at, Waits::ForNothing, Fallback::Choose);
    }
}

/// Arms link-local as the machines begin, also where the DHCPv4 client stands on its kept lease.
pub fn begin_local(iface: &mut Iface, at: u64)
    requires { IsMoment at }
    ensures { begin_local at iface.old ≡ silent iface.new }
{
    arm(&iface.managed.conf, &mut iface.local, at);
}

/// Arms link-local where no lease is held.
pub fn arm_unless_held(iface: &mut Iface, at: u64)
    requires { IsMoment at }
    ensures { arms at iface.old ≡ silent iface.new }
{
    if !holds_lease(&iface.dhcp4) {
        arm(&iface.managed.conf, &mut iface.local, at);
    }
}

/// Link-local is off.
pub fn drop_local(iface: &mut Iface)
    ensures { iface.new ≡ record iface.old { local = off iface.old.local.iface } }
{
    ll_drop(&mut iface.local);
}

/// Ticks link-local, which is due.
#[tactic(auto, using(crate::proofs::ToldLocals::goes_local))]
pub fn tick_local(iface: &mut Iface, at: u64, salt: u64, outs: &mut Outs) -> Result<(), NoMemory>
    requires at { IsMoment at }
    requires due { is_due (due_of iface.old.local.state) at ≡ true }
    requires fits { FitsManaged iface.old.managed }
    ensures { OnOk result (Goes (run.tick_local at salt iface.old) iface.new (asked_in outs.old) (asked_in outs.new)) }
{
    let out = iface.local.tick(at, salt);
    outs.say_arp(iface, out.arp)?;
    outs.tell_local(iface, out.news)
}

/// Link-local hears an ARP packet. `own` holds the hardware addresses of all interfaces of the host.
#[tactic(auto, using(crate::proofs::ToldLocals::goes_local))]
pub fn hear_local(
    iface: &mut Iface,
    arp: &ArpView,
    at: u64,
    salt: u64,
    own: &[Mac],
    outs: &mut Outs,
) -> Result<(), NoMemory>
    requires at { IsMoment at }
    requires fits { FitsManaged iface.old.managed }
    ensures { OnOk result
        (Goes (run.local_hears own.now at salt arp.now iface.old) iface.new (asked_in outs.old) (asked_in outs.new)) }
{
    let out = ll_heard(&mut iface.local, arp, at, salt, own);
    outs.say_arp(iface, out.arp)?;
    outs.tell_local(iface, out.news)
}
