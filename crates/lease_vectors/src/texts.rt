//! The texts of leases and DUIDs, read and printed.

use crate::asking::text;
use duid_text::{link_layer_duid, print_duid, read_duid};
use lease_text::{Origin, is_host_address, print4, read_lease4};
use lease6_text::{print6, read_lease6};
use net_types::{BadText, Hex, NoMemory, TextFault, read_ip4, read_mac};
use std::alloc::Global;
use v4_options::{is_kept, is_well_formed};

/// Where a lease comes from.
fn origin_said(alloc: Global, origin: Option<Origin>) -> Result<String, NoMemory> {
    match origin {
        Some(origin) => {
            let (mac, confirmed) = (origin.mac, origin.confirmed);
            Ok(format!(in alloc; "confirmed {confirmed} for {mac}")?)
        }
        None => Ok("of unknown origin".to_string(alloc)?),
    }
}

/// The first bad line of a text.
fn fault_said(alloc: Global, fault: TextFault<BadText>) -> Result<String, NoMemory> {
    match fault {
        TextFault::Bad { line, cause } => Ok(format!(in alloc; "line {line}: {cause}")?),
        TextFault::NoMemory => Err(NoMemory),
    }
}

/// What a text says of a lease, and whether the lease's copy is printed so, or the first bad line.
fn lease4_said(alloc: Global, text: &[u8]) -> Result<String, NoMemory> {
    let lease = match read_lease4(alloc, text) {
        Ok(lease) => lease,
        Err(fault) => return fault_said(alloc, fault),
    };
    let origin = origin_said(alloc, lease.origin)?;
    let is_alike = print4(alloc, &lease.copied(alloc)?)?.as_slice() == text;
    let (t2, values) = (lease.terms().t2, lease.values.len());
    Ok(format!(in alloc; "t2 {t2}, {values} values, {origin}, printed alike {is_alike}")?)
}

/// The same of DHCPv6.
fn lease6_said(alloc: Global, text: &[u8]) -> Result<String, NoMemory> {
    let lease = match read_lease6(alloc, text) {
        Ok(lease) => lease,
        Err(fault) => return fault_said(alloc, fault),
    };
    let origin = origin_said(alloc, lease.origin)?;
    let is_alike = print6(alloc, &lease)?.as_slice() == text;
    let (t1, ias, values) = (lease.t1, lease.ias.len(), lease.values.len());
    Ok(format!(in alloc;
        "t1 {t1:?}, {ias} associations, {values} values, {origin}, printed alike {is_alike}"
    )?)
}

/// The bytes of the DUID of a text, and whether it is printed so.
fn duid_said(alloc: Global, text: &[u8]) -> Result<String, NoMemory> {
    match read_duid(alloc, text)? {
        Some(duid) => {
            let is_alike = print_duid(alloc, &duid)?.as_slice() == text;
            Ok(format!(in alloc; "{}, printed alike {is_alike}", Hex(duid.as_slice()))?)
        }
        None => Ok("none".to_string(alloc)?),
    }
}

/// The DUID of a hardware address, as its text.
fn duid_of_said(alloc: Global, mac: &str) -> Result<Option<String>, NoMemory> {
    let Ok(mac) = read_mac(mac) else {
        return Ok(None);
    };
    let printed = print_duid(alloc, &link_layer_duid(alloc, mac)?)?;
    Ok(Some(format!(in alloc; "{}", text(&printed).trim_end())?))
}

/// The answer to a vector of texts.
pub(crate) fn answer(
    alloc: Global,
    word: &str,
    arguments: &[Vec<u8>],
) -> Result<Option<String>, NoMemory> {
    let said = match (word, arguments) {
        ("lease4", [lease]) => lease4_said(alloc, lease)?,
        ("lease6", [lease]) => lease6_said(alloc, lease)?,
        ("duid", [duid]) => duid_said(alloc, duid)?,
        ("duid-of", [mac]) => return duid_of_said(alloc, text(mac)),
        ("host-address", [address]) => match read_ip4(text(address)) {
            Ok(address) => format!(in alloc; "{}", is_host_address(address))?,
            Err(_) => return Ok(None),
        },
        ("well-formed", [code, value]) => match text(code).parse::<u8>() {
            Ok(code) => format!(in alloc; "{}", is_well_formed(code, value))?,
            Err(_) => return Ok(None),
        },
        ("kept", [code]) => match text(code).parse::<u8>() {
            Ok(code) => format!(in alloc; "{}", is_kept(code))?,
            Err(_) => return Ok(None),
        },
        _ => return Ok(None),
    };
    Ok(Some(said))
}
