//! Addresses, networks and names, read and printed.

use crate::asking::{ip4, text};
use net_types::{
    Hex, Net, Net6, NoMemory, append_text, print_ip4, print_ip6, printed_net6_of, read_ip4,
    read_ip6, read_mac, read_name, read_net4, read_net6,
};
use std::alloc::Global;

/// The bytes of a hardware address, and how it is printed.
fn mac_said(alloc: Global, text: &str) -> Result<String, NoMemory> {
    match read_mac(text) {
        Ok(mac) => Ok(format!(in alloc; "{:?} {mac}", mac.bytes)?),
        Err(_) => Ok("bad".to_string(alloc)?),
    }
}

/// How a name is printed, and its bytes.
fn name_said(alloc: Global, text: &str) -> Result<String, NoMemory> {
    match read_name(text) {
        Ok(name) => Ok(format!(in alloc; "{name} {}", Hex(name.as_bytes()))?),
        Err(_) => Ok("bad".to_string(alloc)?),
    }
}

/// The number of an address, and how it is printed.
fn ip4_said(alloc: Global, text: &str) -> Result<String, NoMemory> {
    let Ok(ip) = read_ip4(text) else {
        return Ok("bad".to_string(alloc)?);
    };
    let mut said = format!(in alloc; "{} ", ip.number)?;
    print_ip4(ip, &mut said)?;
    Ok(said)
}

/// The same of IPv6.
fn ip6_said(alloc: Global, text: &str) -> Result<String, NoMemory> {
    let Ok(ip) = read_ip6(text) else {
        return Ok("bad".to_string(alloc)?);
    };
    let mut said = format!(in alloc; "{} ", ip.number)?;
    print_ip6(ip, &mut said)?;
    Ok(said)
}

/// How an address within a network is printed, and its network and mask.
fn net4_said(alloc: Global, text: &str) -> Result<String, NoMemory> {
    let Ok(net) = read_net4(text) else {
        return Ok("bad".to_string(alloc)?);
    };
    let mut said = String::new(alloc);
    append_text(Net::V4(net), &mut said)?;
    let (network, mask) = (net.network(), net.mask());
    append_text(
        format_args!(" network {network} mask {mask} of {} bits", mask.mask_len()),
        &mut said,
    )?;
    Ok(said)
}

/// How a network is printed.
fn net6_said(alloc: Global, net: Option<Net6>) -> Result<String, NoMemory> {
    match net {
        Some(net) => Ok(format!(in alloc; "{}", Net::V6(net))?),
        None => Ok("bad".to_string(alloc)?),
    }
}

/// Whether an address lies in a network.
fn within_said(alloc: Global, net: &str, address: &[u8]) -> Result<Option<String>, NoMemory> {
    let (Ok(net), Some(address)) = (read_net4(net), ip4(address)) else {
        return Ok(None);
    };
    Ok(Some(format!(in alloc; "{}", net.contains(address))?))
}

/// The answer to a vector of addresses.
pub(crate) fn answer(
    alloc: Global,
    word: &str,
    arguments: &[Vec<u8>],
) -> Result<Option<String>, NoMemory> {
    match (word, arguments) {
        ("mac", [mac]) => Ok(Some(mac_said(alloc, text(mac))?)),
        ("name", [name]) => Ok(Some(name_said(alloc, text(name))?)),
        ("ip4", [ip]) => Ok(Some(ip4_said(alloc, text(ip))?)),
        ("ip6", [ip]) => Ok(Some(ip6_said(alloc, text(ip))?)),
        ("net4", [net]) => Ok(Some(net4_said(alloc, text(net))?)),
        ("net6", [net]) => Ok(Some(net6_said(alloc, read_net6(text(net)).ok())?)),
        ("printed-net6", [net]) => {
            let net = printed_net6_of(alloc, net)?;
            Ok(Some(net6_said(alloc, net)?))
        }
        ("within", [net, address]) => within_said(alloc, text(net), address),
        _ => Ok(None),
    }
}
