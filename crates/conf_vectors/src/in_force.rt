//! What a configuration sets for the interfaces of a host: eth0, eth1 and eth2, whose indices are 1 to 3.

use conf_text::{managed, read_conf, settings};
use net_types::{IfIndex, IfSpec, Mac, Name, NoMemory};
use settings::{Dhcp6Conf, Identifier, IfConf};
use std::alloc::Global;

/// An interface with a name of four letters.
fn spec(number: u32, name: [u8; 4]) -> IfSpec {
    let [a, b, c, d] = name;
    IfSpec {
        index: IfIndex { number },
        name: Name {
            bytes: [a, b, c, d, 0, 0, 0, 0, 0, 0, 0, 0, 0, 0, 0],
            len: 4,
        },
        mac: Mac {
            bytes: [2, 0, 0, 0, 0, 1],
        },
    }
}

/// The interfaces of the host.
fn specs() -> [IfSpec; 3] {
    [spec(1, *b"eth0"), spec(2, *b"eth1"), spec(3, *b"eth2")]
}

/// What tells a client apart.
fn identifier_said(identifier: &Identifier) -> &'static str {
    match identifier {
        Identifier::Hardware => "its hardware address",
        Identifier::Bytes(_) => "bytes",
        Identifier::Duid => "the DUID",
    }
}

/// The flags that are set.
fn flags_said(alloc: Global, set: &IfConf) -> Result<String, NoMemory> {
    let mut said = String::new(alloc);
    for (is_set, flag) in [
        (set.flags.nodelay, " nodelay"),
        (set.flags.release, " release"),
        (set.flags.persistent, " persistent"),
        (set.dhcp6.rapid, " rapid"),
    ] {
        if is_set {
            said.push_str(flag)?;
        }
    }
    Ok(said)
}

/// The associations, and what leads their prefixes where.
fn associations_said(alloc: Global, dhcp6: &Dhcp6Conf) -> Result<String, NoMemory> {
    let mut said = String::new(alloc);
    for ia in &dhcp6.ias {
        said.push_str(format!(in alloc; ", {:?} {}", ia.kind, ia.iaid)?.as_str())?;
    }
    for share in &dhcp6.shares {
        let (iface, metric) = (share.outlet.iface.number, share.outlet.metric);
        let told = format!(in alloc; ", subnet {} to {iface} metric {metric}", share.share.sla)?;
        said.push_str(told.as_str())?;
    }
    Ok(said)
}

/// What is in force for an interface.
fn in_force_said(alloc: Global, set: &IfConf) -> Result<String, NoMemory> {
    let flags = flags_said(alloc, set)?;
    let associations = associations_said(alloc, &set.dhcp6)?;
    let metric = set.metric;
    let (timeout, reboot) = (set.times.timeout, set.times.reboot);
    let (identifier, refused) = (identifier_said(&set.dhcp4.identifier), &set.dhcp4.refused);
    Ok(format!(in alloc;
        "metric {metric:?} timeout {timeout} reboot {reboot} refused {refused:?} by {identifier}{flags}{associations}"
    )?)
}

/// What a text sets for eth0.
pub(crate) fn set_said(alloc: Global, text: &[u8]) -> Result<String, NoMemory> {
    let conf = match read_conf(alloc, text) {
        Ok(conf) => conf,
        Err(answer) => return Ok(format!(in alloc; "{answer}")?),
    };
    let specs = specs();
    match settings(alloc, &conf, &specs, &specs[0])? {
        Some(set) => in_force_said(alloc, &set),
        None => Ok("not managed".to_string(alloc)?),
    }
}

/// The interfaces that are managed, with their metrics.
pub(crate) fn managed_said(alloc: Global, text: &[u8]) -> Result<String, NoMemory> {
    let conf = match read_conf(alloc, text) {
        Ok(conf) => conf,
        Err(answer) => return Ok(format!(in alloc; "{answer}")?),
    };
    let mut said = "managed".to_string(alloc)?;
    for interface in &managed(alloc, &conf, &specs())? {
        let metric = interface.conf.metric;
        let told = format!(in alloc; " {} metric {metric:?}", interface.spec.name)?;
        said.push_str(told.as_str())?;
    }
    Ok(said)
}
