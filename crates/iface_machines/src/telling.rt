//! The jobs of hooks: what they are told of what is new on an interface (dhcpcd-run-hooks(8)).
ghost use Rattle.std.specs.Prelude.{◌≡◌, ◌++◌, true, IfOk, OnOk, map, option_map, option_to_list};
ghost use Rattle.lease_text.specs.Leases.{lease_content};
ghost use Rattle.lease6_text.specs.Leases.{lease6_content};
ghost use Rattle.world.specs.HookCalls.{job_of};
ghost use Rattle.world.specs.Rows.{IsInterface};
ghost use Rattle.hook_env.specs.Situations.{held_content};
ghost use Rattle.settings.specs.HookSettings.{script_in};
ghost use Rattle.client_model.specs.Jobs.{jobs_of, leased4, leased6, local_held, own, own_if, reason4, reason6, script_path, static_told};
ghost use Rattle.client_model.specs.WantedRows.{local_net, metric_of};
ghost use Rattle.iface_machines.specs.Outcomes.{told_content};

use crate::outs::Told;
use hook_env::{Held, Situation, job};
use lease_text::Lease4;
use lease6_text::Lease6;
use net_types::{Ip4, Net4, NoMemory};
use settings::{Managed, Script};
use std::alloc::Global;
use v4_client::News4;
use v6_client::News6;
use world::{HookJob, Reason};

/// The metric of an interface's routes is this and its index, where none is configured.
const METRIC_BASE: u32 = 1000;

/// The length of the network of link-local addresses (RFC 3927, section 2.1).
const LOCAL_LEN: u8 = 16;

/// The metric of the routes of an interface.
pub fn metric_of(managed: &Managed) -> u32
    requires { IsInterface managed.now.spec.index.number }
    ensures { result ≡ metric_of managed.now }
{
    managed
        .conf
        .metric
        .unwrap_or(METRIC_BASE + managed.spec.index.number)
}

/// The path of the script that is run, empty for the device's own; None where no hooks are run.
fn script_path(script: &Script) -> Option<&str>
    ensures { option_map (λ path. path.now) result ≡ script_path (script_in script.now) }
{
    match script {
        Script::Nothing => None,
        Script::Default => Some(""),
        Script::At(path) => Some(path),
    }
}

/// The job of an event of an interface, where hooks are run. `up` is whether it has carrier then.
pub fn event_job(
    alloc: Global,
    reason: Reason,
    managed: &Managed,
    up: bool,
    held_before: Held<'_>,
    held_now: Held<'_>,
) -> Result<Option<HookJob>, NoMemory>
    requires { IsInterface managed.now.spec.index.number }
    ensures { IfOk result
        (λ made. map job_of (option_to_list made)
        ≡ jobs_of reason managed.now up (held_content held_before.entry) (held_content held_now.entry)) }
{
    let Some(script) = script_path(&managed.conf.hooks.script) else {
        return Ok(None);
    };
    let situation = Situation {
        reason,
        interface: managed.spec,
        metric: metric_of(managed),
        up,
        script,
        env: &managed.conf.hooks.env,
        held_before,
        held_now,
    };
    Ok(Some(job(alloc, &situation)?))
}

/// Appends the job of an event of an interface, where hooks are run.
pub(crate) fn push_event(
    told: &mut Vec<Told>,
    reason: Reason,
    managed: &Managed,
    up: bool,
    held_before: Held<'_>,
    held_now: Held<'_>,
) -> Result<(), NoMemory>
    requires { IsInterface managed.now.spec.index.number }
    ensures { OnOk result
        (map told_content told.new.items
        ≡ map told_content told.old.items
        ++ own reason managed.now up (held_content held_before.entry) (held_content held_now.entry)) }
{
    match event_job(
        *told.allocator(),
        reason,
        managed,
        up,
        held_before,
        held_now,
    )? {
        None => Ok(()),
        Some(job) => {
            told.push(Told::Own(job))?;
            Ok(())
        }
    }
}

/// Appends the job of an event of a lease, where it is one.
pub(crate) fn push_event_if(
    told: &mut Vec<Told>,
    reason: Option<Reason>,
    managed: &Managed,
    up: bool,
    held_before: Held<'_>,
    held_now: Held<'_>,
) -> Result<(), NoMemory>
    requires { IsInterface managed.now.spec.index.number }
    ensures { OnOk result
        (map told_content told.new.items
        ≡ map told_content told.old.items
        ++ own_if reason managed.now up (held_content held_before.entry) (held_content held_now.entry)) }
{
    match reason {
        None => Ok(()),
        Some(reason) => push_event(told, reason, managed, up, held_before, held_now),
    }
}

/// Appends the job of the static address that is in force once the carrier came, where there is one.
pub(crate) fn push_static(told: &mut Vec<Told>, managed: &Managed) -> Result<(), NoMemory>
    requires { IsInterface managed.now.spec.index.number }
    ensures { OnOk result
        (map told_content told.new.items
        ≡ map told_content told.old.items ++ static_told managed.now true managed.now.conf.address) }
{
    match managed.conf.address {
        None => Ok(()),
        Some(net) => push_event(
            told,
            Reason::StaticLine,
            managed,
            true,
            Held::Nothing,
            Held::Address4(net),
        ),
    }
}

/// What is held where this lease is.
pub(crate) fn leased4(lease: Option<&Lease4>) -> Held<'_>
    ensures { held_content result ≡ leased4 (option_map (λ lease. lease_content lease.now) lease.entry) }
{
    match lease {
        None => Held::Nothing,
        Some(lease) => Held::Leased4(lease),
    }
}

/// What is held where this lease is.
pub(crate) fn leased6(lease: Option<&Lease6>) -> Held<'_>
    ensures { held_content result ≡ leased6 (option_map (λ lease. lease6_content lease.now) lease.entry) }
{
    match lease {
        None => Held::Nothing,
        Some(lease) => Held::Leased6(lease),
    }
}

/// A link-local address with its network.
pub(crate) fn local_net(ip: Ip4) -> Net4
    ensures { result ≡ local_net ip }
{
    Net4 { ip, len: LOCAL_LEN }
}

/// What is held where this link-local address is.
pub(crate) fn local_held(ip: Option<Ip4>) -> Held<'static>
    ensures { held_content result ≡ local_held ip }
{
    match ip {
        None => Held::Nothing,
        Some(ip) => Held::Address4(local_net(ip)),
    }
}

/// The reason of what has become of a DHCPv4 lease.
pub(crate) fn reason4(news: News4) -> Option<Reason>
    ensures { result ≡ reason4 news }
{
    match news {
        News4::Nothing => None,
        News4::Bound => Some(Reason::Bound),
        News4::Reboot => Some(Reason::Reboot),
        News4::Renew => Some(Reason::Renew),
        News4::Rebind => Some(Reason::Rebind),
        News4::Nak => Some(Reason::Nak),
        News4::Expire => Some(Reason::Expire),
        News4::Stop => Some(Reason::Stop),
    }
}

/// The reason of what has become of a DHCPv6 lease. Items that come or go beside others have none of their own.
pub(crate) fn reason6(news: News6) -> Option<Reason>
    ensures { result ≡ reason6 news }
{
    match news {
        News6::Nothing => None,
        News6::Changed => None,
        News6::Bound => Some(Reason::Bound6),
        News6::Reboot => Some(Reason::Reboot6),
        News6::Renew => Some(Reason::Renew6),
        News6::Rebind => Some(Reason::Rebind6),
        News6::Expire => Some(Reason::Expire6),
        News6::Stop => Some(Reason::Stop6),
    }
}
