//! The DHCPv6 client of an interface.
ghost use Rattle.std.specs.Prelude.{◌≡◌, true, map, option_map, IfOk, IfSome, OnOk};
ghost use Rattle.net_types.specs.Moments.{IsMoment};
ghost use Rattle.lease6_text.specs.Bounds.{FitsLease6};
ghost use Rattle.lease6_text.specs.Leases.{lease6_content};
ghost use Rattle.machine.specs.Moment.{is_due};
ghost use Rattle.settings.specs.Fitting.{FitsManaged};
ghost use Rattle.v6_frames.specs.Heard.{heard_shown};
ghost use Rattle.v6_client.specs.Calls.{due_of};
ghost use Rattle.v6_client.specs.Clients.{client_made};
ghost use Rattle.v6_client.specs.Moves.{out_content};
ghost use Rattle.v6_client.specs.Settings.{settings_content};
ghost use Rattle.client_model.specs.ClientSettings6.{ask_for, runs_dhcp6, settings6_of};
ghost use Rattle.client_model.specs.Dhcp6Steps as run;
ghost use Rattle.iface_machines.specs.Outcomes.{Follows6, Goes, asked_in};

use crate::outs::Outs;
use client_model::Iface;
use lease6_text::Lease6;
use machine::Machine;
use net_types::{Ip6, NoMemory};
use settings::{IaConf, IfConf, Managed};
use std::alloc::{AllocError, Global};
use v4_client::Tell;
use v6_client::{
    Carrier6, Client6, Out6, Set6, Tell6, carrier6, client6_new, duplicate6, heard6, rebind6,
    release6,
};
use v6_frames::Heard6;
use v6_items::IaAsk;
use v6_options::Duid;

/// DHCPv6 runs where an IA is asked for, unless it is forbidden.
pub fn runs_dhcp6(conf: &IfConf) -> bool
    ensures { result ≡ runs_dhcp6 conf.now }
{
    !conf.dhcp6.ias.is_empty() && !conf.flags.nodhcp6 && !conf.flags.ipv4only
}

/// The IAs that the client asks for.
pub fn asks_of(alloc: Global, ias: &[IaConf]) -> Result<Vec<IaAsk>, AllocError>
    ensures { IfOk result (λ asks. asks.items ≡ map ask_for ias.now) }
{
    ias.iter()
        .map(|ia| IaAsk {
            kind: ia.kind,
            iaid: ia.iaid,
            hint: ia.hint,
        })
        .collect(alloc)
}

fn settings6_of(alloc: Global, managed: &Managed, duid: Duid) -> Result<Set6, AllocError>
    ensures { IfOk result (λ set. settings_content set ≡ settings6_of duid.bytes.items managed.now) }
{
    let conf = &managed.conf;
    Ok(Set6 {
        iface: managed.spec,
        flags: conf.flags,
        duid,
        ias: asks_of(alloc, &conf.dhcp6.ias)?,
        rapid: conf.dhcp6.rapid,
    })
}

/// The client of an interface, off, with the lease that was kept before. `duid` is that of the host.
pub fn client6_of(
    alloc: Global,
    managed: &Managed,
    duid: Duid,
    kept: Option<Lease6>,
) -> Result<Client6, AllocError>
    requires managed { FitsManaged managed.now }
    requires kept { IfSome (option_map lease6_content kept) FitsLease6 }
    ensures { IfOk result
        (λ client. client ≡ client_made (settings6_of duid.bytes.items managed.now) (option_map lease6_content kept)) }
{
    let set = settings6_of(alloc, managed, duid)?;
    Ok(client6_new(alloc, set, kept))
}

/// Takes over what the client says.
fn follow(iface: &Iface, out: &Out6, outs: &mut Outs) -> Result<(), NoMemory>
    requires { FitsManaged iface.now.managed }
    ensures { OnOk result (Follows6 (out_content out.now) iface.now (asked_in outs.old) (asked_in outs.new)) }
{
    outs.say_dhcp6(iface, out.say.as_ref())?;
    outs.tell_lease6(iface, out.news, out.old.as_ref())
}

/// Ticks the client, which is due.
pub fn tick_dhcp6(iface: &mut Iface, at: u64, salt: u64, outs: &mut Outs) -> Result<(), NoMemory>
    requires at { IsMoment at }
    requires due { is_due (due_of iface.old.dhcp6) at ≡ true }
    requires fits { FitsManaged iface.old.managed }
    ensures { OnOk result (Goes (run.tick_dhcp6 at salt iface.old) iface.new (asked_in outs.old) (asked_in outs.new)) }
{
    let out = iface.dhcp6.tick(at, salt)?;
    follow(iface, &out, outs)
}

/// A client that is off begins, where DHCPv6 runs.
pub fn begin_dhcp6(iface: &mut Iface, at: u64, salt: u64, outs: &mut Outs) -> Result<(), NoMemory>
    requires at { IsMoment at }
    requires fits { FitsManaged iface.old.managed }
    ensures { OnOk result (Goes (run.begin_dhcp6 at salt iface.old) iface.new (asked_in outs.old) (asked_in outs.new)) }
{
    if !runs_dhcp6(&iface.managed.conf) {
        return Ok(());
    }
    let out = carrier6(&mut iface.dhcp6, Carrier6::Up, at, salt)?;
    follow(iface, &out, outs)
}

/// Items that are held are asked for again of any server, and a client that is off begins, where DHCPv6 runs.
pub fn rebind_dhcp6(iface: &mut Iface, at: u64, salt: u64, outs: &mut Outs) -> Result<(), NoMemory>
    requires at { IsMoment at }
    requires fits { FitsManaged iface.old.managed }
    ensures { OnOk result
        (Goes (run.rebind_dhcp6 at salt iface.old) iface.new (asked_in outs.old) (asked_in outs.new)) }
{
    if !runs_dhcp6(&iface.managed.conf) {
        return Ok(());
    }
    let out = rebind6(&mut iface.dhcp6, at, salt)?;
    follow(iface, &out, outs)
}

/// The carrier is gone: the client is off, and the kept lease stays kept.
pub fn drop_dhcp6(iface: &mut Iface, at: u64, salt: u64, outs: &mut Outs) -> Result<(), NoMemory>
    requires at { IsMoment at }
    requires fits { FitsManaged iface.old.managed }
    ensures { OnOk result (Goes (run.drop_dhcp6 at salt iface.old) iface.new (asked_in outs.old) (asked_in outs.new)) }
{
    let out = carrier6(&mut iface.dhcp6, Carrier6::Down, at, salt)?;
    follow(iface, &out, outs)
}

/// As the DHCPv4 client tells its server, so the DHCPv6 client does.
fn tell6_of(tell: Tell) -> Tell6
    ensures { result ≡ run.tell6_of tell }
{
    match tell {
        Tell::Server => Tell6::Server,
        Tell::Nobody => Tell6::Nobody,
    }
}

/// The client stops; `tell` says whether the server of held items is told.
pub fn stop_dhcp6(
    iface: &mut Iface,
    tell: Tell,
    at: u64,
    salt: u64,
    outs: &mut Outs,
) -> Result<(), NoMemory>
    requires at { IsMoment at }
    requires fits { FitsManaged iface.old.managed }
    ensures { OnOk result
        (Goes (run.stop_dhcp6 tell at salt iface.old) iface.new (asked_in outs.old) (asked_in outs.new)) }
{
    let out = release6(&mut iface.dhcp6, tell6_of(tell), at, salt)?;
    follow(iface, &out, outs)
}

/// The client hears a server's message.
pub fn hear_message6(
    iface: &mut Iface,
    heard: &Heard6,
    at: u64,
    salt: u64,
    outs: &mut Outs,
) -> Result<(), NoMemory>
    requires at { IsMoment at }
    requires fits { FitsManaged iface.old.managed }
    ensures { OnOk result
        (Goes (run.dhcp6_takes at salt (heard_shown heard.now) iface.old) iface.new (asked_in outs.old)
        (asked_in outs.new)) }
{
    let out = heard6(&mut iface.dhcp6, &heard.message, at, salt)?;
    follow(iface, &out, outs)
}

/// Another host uses an address.
pub fn contest(
    iface: &mut Iface,
    addr: Ip6,
    at: u64,
    salt: u64,
    outs: &mut Outs,
) -> Result<(), NoMemory>
    requires at { IsMoment at }
    requires fits { FitsManaged iface.old.managed }
    ensures { OnOk result
        (Goes (run.contested at salt addr iface.old) iface.new (asked_in outs.old) (asked_in outs.new)) }
{
    let out = duplicate6(&mut iface.dhcp6, addr, at, salt)?;
    follow(iface, &out, outs)
}
