//! The DHCPv4 client of an interface, and what link-local makes of its news.
ghost use Rattle.std.specs.Prelude.{◌≡◌, ◌∷◌, ◌++◌, true, is_some, option_map, IfOk, IfSome, OnOk};
ghost use Rattle.std.specs.Int.{w32, to_be_bytes};
ghost use Rattle.net_types.specs.Moments.{IsMoment};
ghost use Rattle.lease_text.specs.Bounds.{FitsLease};
ghost use Rattle.lease6_text.specs.Bounds.{IsDuid};
ghost use Rattle.lease_text.specs.Leases.{lease_content};
ghost use Rattle.machine.specs.Moment.{is_due};
ghost use Rattle.settings.specs.Fitting.{FitsManaged};
ghost use Rattle.v4_frames.specs.Heard.{heard_shown};
ghost use Rattle.v4_message.specs.Requests.{ask_content};
ghost use Rattle.v4_client.specs.Clients.{client_made, held_of, out_content};
ghost use Rattle.v4_client.specs.Due.{due_of};
ghost use Rattle.v4_client.specs.Settings.{settings_content};
ghost use Rattle.client_model.specs.declared.asking.TheConstants.{BY_DUID, ETHERNET};
ghost use Rattle.client_model.specs.ClientSettings.{ask_of, runs_dhcp4, settings_of};
ghost use Rattle.client_model.specs.Dhcp4Steps as run;
ghost use Rattle.iface_machines.specs.Outcomes.{Follows, Goes, asked_in};

use crate::codes::codes_of;
use crate::local::{arm, drop_local};
use crate::outs::Outs;
use client_model::{BY_DUID, ETHERNET, Iface};
use frame_link::ArpView;
use lease_text::Lease4;
use machine::Machine;
use net_types::{IfIndex, Mac, NoMemory, u32_octets};
use settings::{Identifier, IfConf, Managed};
use std::alloc::{AllocError, Global};
use v4_client::{
    Carrier, Client4, News4, Out4, Set4, Tell, carrier4, client4_new, heard_arp4, heard4, held4,
    rebind4, release4,
};
use v4_frames::Heard4;
use v4_message::Ask4;
use v6_options::Duid;

/// DHCPv4 runs where it isn't forbidden and no static address is given.
pub fn runs_dhcp4(conf: &IfConf) -> bool
    ensures { result ≡ runs_dhcp4 conf.now }
{
    !conf.flags.nodhcp && !conf.flags.ipv6only && conf.address.is_none()
}

/// The identifier that is the hardware address (RFC 2132, section 9.14).
fn hardware_identifier(alloc: Global, mac: Mac) -> Result<Vec<u8>, AllocError>
    ensures { IfOk result (λ identifier. identifier.items ≡ ETHERNET ∷ mac.bytes) }
{
    let mut identifier = Vec::new(alloc);
    identifier.push(ETHERNET)?;
    identifier.extend_from_slice(&mac.bytes)?;
    Ok(identifier)
}

/// The identifier that is the DUID of the host, with the interface's index as IAID (RFC 4361, section 6.1).
fn duid_identifier(alloc: Global, index: IfIndex, duid: &Duid) -> Result<Vec<u8>, AllocError>
    ensures { IfOk result
        (λ identifier. identifier.items ≡ BY_DUID ∷ (to_be_bytes w32 index.number ++ duid.now.bytes.items)) }
{
    let mut identifier = Vec::new(alloc);
    identifier.push(BY_DUID)?;
    identifier.extend_from_slice(&u32_octets(index.number))?;
    identifier.extend_from_slice(duid.as_slice())?;
    Ok(identifier)
}

/// By what a client is known.
fn identifier_of(alloc: Global, managed: &Managed, duid: &Duid) -> Result<Vec<u8>, AllocError>
    ensures { IfOk result (λ identifier. identifier.items ≡ (ask_of duid.now.bytes.items managed.now).client_id) }
{
    match &managed.conf.dhcp4.identifier {
        Identifier::Hardware => hardware_identifier(alloc, managed.spec.mac),
        Identifier::Bytes(bytes) => bytes.to_vec(alloc),
        Identifier::Duid => duid_identifier(alloc, managed.spec.index, duid),
    }
}

/// What the client of an interface says of itself.
pub fn ask_of(alloc: Global, managed: &Managed, duid: &Duid) -> Result<Ask4, AllocError>
    ensures { IfOk result (λ ask. ask_content ask ≡ ask_of duid.now.bytes.items managed.now) }
{
    let conf = &managed.conf.dhcp4;
    Ok(Ask4 {
        client_id: identifier_of(alloc, managed, duid)?,
        vendor: conf.vendor.to_vec(alloc)?,
        host: conf.host.to_vec(alloc)?,
        list: codes_of(alloc, &conf.asked, &conf.refused)?,
    })
}

/// The settings of the client of an interface.
pub fn settings_of(alloc: Global, managed: &Managed, duid: &Duid) -> Result<Set4, AllocError>
    ensures { IfOk result (λ set. settings_content set ≡ settings_of duid.now.bytes.items managed.now) }
{
    let conf = &managed.conf;
    Ok(Set4 {
        iface: managed.spec,
        flags: conf.flags,
        times: conf.times,
        ask: ask_of(alloc, managed, duid)?,
        required: conf.dhcp4.required.to_vec(alloc)?,
        refused: conf.dhcp4.refused.to_vec(alloc)?,
        blacklist: conf.dhcp4.blacklist.to_vec(alloc)?,
    })
}

/// The client of an interface, off, with the lease that was kept before. `duid` is that of the host.
pub fn client_of(
    alloc: Global,
    managed: &Managed,
    duid: &Duid,
    kept: Option<Lease4>,
) -> Result<Client4, AllocError>
    requires managed { FitsManaged managed.now }
    requires duid { IsDuid duid.now.bytes.items }
    requires kept { IfSome (option_map lease_content kept) FitsLease }
    ensures { IfOk result
        (λ client. client
        ≡ client_made (settings_of duid.now.bytes.items managed.now) (option_map lease_content kept)) }
{
    let set = settings_of(alloc, managed, duid)?;
    Ok(client4_new(alloc, set, kept))
}

/// Whether a client holds a lease.
pub fn holds_lease(client: &Client4) -> bool
    ensures { result ≡ is_some (held_of client.now) }
{
    held4(client).is_some()
}

/// Link-local after the client's news: a lease that is bound turns it off, and where one that was held has ended, it is
/// armed.
fn follow_local(iface: &mut Iface, held: bool, news: News4, at: u64)
    requires { IsMoment at }
    ensures { iface.new
        ≡ record iface.old { local = run.followed iface.old.managed.conf at held news iface.old.local } }
{
    match news {
        News4::Bound | News4::Reboot => drop_local(iface),
        News4::Nak | News4::Expire => {
            if held {
                arm(&iface.managed.conf, &mut iface.local, at);
            }
        }
        News4::Renew | News4::Rebind | News4::Stop | News4::Nothing => {}
    }
}

/// Takes over what the client says. `held` is whether it held a lease before.
fn follow(
    iface: &mut Iface,
    held: bool,
    out: &Out4,
    at: u64,
    outs: &mut Outs,
) -> Result<(), NoMemory>
    requires at { IsMoment at }
    requires fits { FitsManaged iface.old.managed }
    ensures { OnOk result
        (Follows at held (out_content out.now) iface.old iface.new (asked_in outs.old) (asked_in outs.new)) }
{
    follow_local(iface, held, out.news, at);
    outs.say_dhcp4(iface, out.say)?;
    outs.say_arp(iface, out.arp)?;
    outs.tell_lease(iface, out.news, out.old.as_ref())
}

/// Ticks the client, which is due.
#[tactic(auto, using(crate::proofs::Following::goes_dhcp4))]
pub fn tick_dhcp4(iface: &mut Iface, at: u64, salt: u64, outs: &mut Outs) -> Result<(), NoMemory>
    requires at { IsMoment at }
    requires due { is_due (due_of iface.old.dhcp4.state) at ≡ true }
    requires fits { FitsManaged iface.old.managed }
    ensures { OnOk result (Goes (run.tick_dhcp4 at salt iface.old) iface.new (asked_in outs.old) (asked_in outs.new)) }
{
    let held = holds_lease(&iface.dhcp4);
    let out = iface.dhcp4.tick(at, salt)?;
    follow(iface, held, &out, at, outs)
}

/// A client that is off begins, where DHCPv4 runs.
pub fn begin_dhcp4(iface: &mut Iface, at: u64, salt: u64, outs: &mut Outs) -> Result<(), NoMemory>
    requires at { IsMoment at }
    requires fits { FitsManaged iface.old.managed }
    ensures { OnOk result (Goes (run.begin_dhcp4 at salt iface.old) iface.new (asked_in outs.old) (asked_in outs.new)) }
{
    if !runs_dhcp4(&iface.managed.conf) {
        return Ok(());
    }
    let held = holds_lease(&iface.dhcp4);
    let out = carrier4(&mut iface.dhcp4, Carrier::Up, at, salt)?;
    follow(iface, held, &out, at, outs)
}

/// A lease that is held is confirmed with any server, and a client that is off begins, where DHCPv4 runs.
pub fn rebind_dhcp4(iface: &mut Iface, at: u64, salt: u64, outs: &mut Outs) -> Result<(), NoMemory>
    requires at { IsMoment at }
    requires fits { FitsManaged iface.old.managed }
    ensures { OnOk result
        (Goes (run.rebind_dhcp4 at salt iface.old) iface.new (asked_in outs.old) (asked_in outs.new)) }
{
    if !runs_dhcp4(&iface.managed.conf) {
        return Ok(());
    }
    let held = holds_lease(&iface.dhcp4);
    let out = rebind4(&mut iface.dhcp4, at, salt)?;
    follow(iface, held, &out, at, outs)
}

/// The carrier is gone: the client is off, and the kept lease stays kept.
#[tactic(auto, using(crate::proofs::Following::goes_dhcp4))]
pub fn drop_dhcp4(iface: &mut Iface, at: u64, salt: u64, outs: &mut Outs) -> Result<(), NoMemory>
    requires at { IsMoment at }
    requires fits { FitsManaged iface.old.managed }
    ensures { OnOk result (Goes (run.drop_dhcp4 at salt iface.old) iface.new (asked_in outs.old) (asked_in outs.new)) }
{
    let held = holds_lease(&iface.dhcp4);
    let out = carrier4(&mut iface.dhcp4, Carrier::Down, at, salt)?;
    follow(iface, held, &out, at, outs)
}

/// The client stops; `tell` says whether the server of a held lease is told.
#[tactic(auto, using(crate::proofs::Following::goes_dhcp4))]
pub fn stop_dhcp4(
    iface: &mut Iface,
    tell: Tell,
    at: u64,
    salt: u64,
    outs: &mut Outs,
) -> Result<(), NoMemory>
    requires at { IsMoment at }
    requires fits { FitsManaged iface.old.managed }
    ensures { OnOk result
        (Goes (run.stop_dhcp4 tell at salt iface.old) iface.new (asked_in outs.old) (asked_in outs.new)) }
{
    let held = holds_lease(&iface.dhcp4);
    let out = release4(&mut iface.dhcp4, tell, at, salt)?;
    follow(iface, held, &out, at, outs)
}

/// The client hears an ARP packet. `own` holds the hardware addresses of all interfaces of the host.
pub fn hear_packet(
    iface: &mut Iface,
    arp: &ArpView,
    at: u64,
    salt: u64,
    own: &[Mac],
    outs: &mut Outs,
) -> Result<(), NoMemory>
    requires at { IsMoment at }
    requires fits { FitsManaged iface.old.managed }
    ensures { OnOk result
        (Goes (run.dhcp4_packet own.now at salt arp.now iface.old) iface.new (asked_in outs.old) (asked_in outs.new)) }
{
    let held = holds_lease(&iface.dhcp4);
    let out = heard_arp4(&mut iface.dhcp4, arp, at, salt, own)?;
    follow(iface, held, &out, at, outs)
}

/// The client hears a server's message.
pub fn hear_message(
    iface: &mut Iface,
    heard: &Heard4,
    at: u64,
    salt: u64,
    outs: &mut Outs,
) -> Result<(), NoMemory>
    requires at { IsMoment at }
    requires fits { FitsManaged iface.old.managed }
    ensures { OnOk result
        (Goes (run.dhcp4_takes at salt (run.arrival_at at (heard_shown heard.now)) iface.old) iface.new
        (asked_in outs.old) (asked_in outs.new)) }
{
    let held = holds_lease(&iface.dhcp4);
    let out = heard4(&mut iface.dhcp4, &heard.message, heard.source, at, salt)?;
    follow(iface, held, &out, at, outs)
}
