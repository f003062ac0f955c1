//! Which interfaces are managed, and what is in force for each.
ghost use Rattle.std.specs.Prelude.{◌≡◌, ◌++◌, option_and_then, option_map, IfOk, OnOk, []};
ghost use Rattle.std.specs.List.{cons_option};
ghost use Rattle.settings.specs.Dhcp4Settings.{identifier_in};
ghost use Rattle.conf_directives.specs.Contents.{identifier_content};
ghost use Rattle.conf_scopes.specs.Values.{first_said};
ghost use Rattle.conf_scopes.specs.ScopeContents.{scope_content};
ghost use Rattle.conf_text.specs.Contents.{configuration};
ghost use Rattle.conf_text.specs.Settings.{dhcp4_in_force, dhcp6_in_force, first_router, identifier_or_hardware, in_force, in_force_among};
ghost use Rattle.conf_text.specs.Settings.{managed_of, managed_with, settings_for, settings_of};

use crate::associations::{Found, associations_of};
use crate::blocks::said_of;
use crate::choosing::is_managed;
use crate::conf::Conf;
use crate::hooks::hooks_in_force;
use crate::lists::{going_on, list_of};
use crate::resolver::resolver_in_force;
use crate::subject::Subject;
use conf_directives::Identifier as IdentifierSaid;
use conf_scopes::Scope;
use net_types::{IfSpec, Ip4, NoMemory};
use settings::{Dhcp4Conf, Dhcp6Conf, HookConf, Identifier, IfConf, Managed};
use std::alloc::Global;

/// What tells the client apart: the hardware address where no line says it.
fn identifier_of(alloc: Global, identifier: &Option<IdentifierSaid>) -> Result<Identifier, NoMemory>
    ensures { IfOk result
        (λ said. identifier_in said ≡ identifier_or_hardware (option_map identifier_content identifier.now)) }
{
    match identifier {
        Some(IdentifierSaid::Bytes(bytes)) => Ok(Identifier::Bytes(bytes.to_vec(alloc)?)),
        Some(IdentifierSaid::Duid) => Ok(Identifier::Duid),
        Some(IdentifierSaid::Hardware) | None => Ok(Identifier::Hardware),
    }
}

fn dhcp4_in_force(alloc: Global, global: &Scope, block: &Scope) -> Result<Dhcp4Conf, NoMemory>
    ensures { IfOk result (λ conf. conf ≡ dhcp4_in_force (scope_content global.now) (scope_content block.now)) }
{
    let identifier = if block.identifier.is_some() {
        &block.identifier
    } else {
        &global.identifier
    };
    Ok(Dhcp4Conf {
        host: list_of(alloc, &block.host, &global.host)?,
        vendor: list_of(alloc, &block.vendor, &global.vendor)?,
        identifier: identifier_of(alloc, identifier)?,
        asked: going_on(alloc, &global.asked.codes, &block.asked.codes)?,
        refused: going_on(alloc, &global.refused.codes, &block.refused.codes)?,
        required: going_on(alloc, &global.required.codes, &block.required.codes)?,
        blacklist: going_on(alloc, &global.blacklist, &block.blacklist)?,
    })
}

/// What is in force for the DHCPv6 client of an interface.
fn dhcp6_in_force(alloc: Global, subject: &Subject<'_>) -> Result<Dhcp6Conf, NoMemory>
    ensures { IfOk result
        (λ conf. conf
        ≡ dhcp6_in_force (configuration subject.now.conf.now) subject.now.ifaces.now subject.now.spec.now
        (scope_content subject.now.block.now)) }
{
    let rapid = subject.conf.global.asked.rapid || subject.block.asked.rapid;
    let Found { ias, shares } = associations_of(alloc, subject)?;
    Ok(Dhcp6Conf { rapid, ias, shares })
}

fn first_router(routers: &Option<Vec<Ip4>>) -> Option<Ip4>
    ensures { result ≡ option_and_then first_router (option_map (λ r. r.items) routers.now) }
{
    match routers {
        Some(routers) => routers.first().copied(),
        None => None,
    }
}

fn router_in_force(block: &Option<Vec<Ip4>>, global: &Option<Vec<Ip4>>) -> Option<Ip4>
    ensures { result
        ≡ option_and_then first_router
        (first_said (option_map (λ r. r.items) block.now) (option_map (λ r. r.items) global.now)) }
{
    if block.is_some() {
        first_router(block)
    } else {
        first_router(global)
    }
}

/// What is in force for the interface of a block.
fn in_force(
    alloc: Global,
    dhcp6: Dhcp6Conf,
    hooks: HookConf,
    global: &Scope,
    block: &Scope,
) -> Result<IfConf, NoMemory>
    ensures { IfOk result (λ conf. conf ≡ in_force dhcp6 hooks (scope_content global.now) (scope_content block.now)) }
{
    let router = router_in_force(&block.statics.routers, &global.statics.routers);
    let dhcp4 = dhcp4_in_force(alloc, global, block)?;
    let resolver = resolver_in_force(alloc, &global.statics, &block.statics)?;
    Ok(IfConf {
        flags: global.flags.or(block.flags),
        times: block.times.in_force(global.times),
        metric: block.metric.or(global.metric),
        address: block.statics.address.or(global.statics.address),
        address6: block.statics.address6.or(global.statics.address6),
        router,
        dhcp4,
        dhcp6,
        resolver,
        hooks,
    })
}

fn in_force_among(alloc: Global, subject: &Subject<'_>) -> Result<IfConf, NoMemory>
    ensures { IfOk result
        (λ conf. conf
        ≡ in_force_among (configuration subject.now.conf.now) subject.now.ifaces.now subject.now.spec.now
        (scope_content subject.now.block.now)) }
{
    let dhcp6 = dhcp6_in_force(alloc, subject)?;
    let hooks = hooks_in_force(alloc, subject.conf, subject.block)?;
    in_force(alloc, dhcp6, hooks, &subject.conf.global, subject.block)
}

/// What is in force for an interface, whether or not it is managed.
fn settings_for(
    alloc: Global,
    conf: &Conf,
    ifaces: &[IfSpec],
    spec: &IfSpec,
) -> Result<IfConf, NoMemory>
    ensures { IfOk result (λ settings. settings ≡ settings_for (configuration conf.now) ifaces.now spec.now) }
{
    match said_of(&conf.blocks, &spec.name) {
        Some(block) => {
            in_force_among(
                alloc,
                &Subject {
                    conf,
                    ifaces,
                    spec,
                    block,
                },
            )
        }
        None => {
            let block = &Scope::empty(alloc);
            in_force_among(
                alloc,
                &Subject {
                    conf,
                    ifaces,
                    spec,
                    block,
                },
            )
        }
    }
}

/// What is in force for an interface. None where it isn't managed. `ifaces` are all interfaces.
pub fn settings(
    alloc: Global,
    conf: &Conf,
    ifaces: &[IfSpec],
    spec: &IfSpec,
) -> Result<Option<IfConf>, NoMemory>
    ensures { IfOk result (λ settings. settings ≡ settings_of (configuration conf.now) ifaces.now spec.now) }
{
    if is_managed(conf, &spec.name) {
        Ok(Some(settings_for(alloc, conf, ifaces, spec)?))
    } else {
        Ok(None)
    }
}

fn add_managed(all: &mut Vec<Managed>, spec: IfSpec, conf: Option<IfConf>) -> Result<(), NoMemory>
    ensures { OnOk result (all.new.items ≡ all.old.items ++ cons_option (managed_with spec conf) []) }
{
    match conf {
        Some(conf) => {
            all.push(Managed { spec, conf })?;
            Ok(())
        }
        None => Ok(()),
    }
}

/// The interfaces that are managed, in their order, with what is in force for each.
pub fn managed(alloc: Global, conf: &Conf, ifaces: &[IfSpec]) -> Result<Vec<Managed>, NoMemory>
    ensures { IfOk result (λ all. all.items ≡ managed_of (configuration conf.now) ifaces.now) }
{
    let mut all = Vec::new(alloc);
    for spec in ifaces {
        let settings = settings(alloc, conf, ifaces, spec)?;
        add_managed(&mut all, *spec, settings)?;
    }
    Ok(all)
}
