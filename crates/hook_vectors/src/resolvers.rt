//! The text of the resolver's file.

use crate::asking::text;
use net_types::{IfIndex, NoMemory, read_ip4, read_ip6, read_name};
use resolver_text::{Family, Part, Server, resolver};
use std::alloc::Global;

/// The servers of a list with blanks between them.
fn servers_of(alloc: Global, list: &str) -> Result<Vec<Server>, NoMemory> {
    let mut servers = Vec::new(alloc);
    for server in list.split(' ') {
        if let Ok(ip) = read_ip4(server) {
            servers.push(Server::V4(ip))?;
        } else if let Ok(ip) = read_ip6(server) {
            servers.push(Server::V6(ip))?;
        }
    }
    Ok(servers)
}

/// The names of a list with commas between them; no list has none.
fn names_of(alloc: Global, list: &str) -> Result<Vec<String>, NoMemory> {
    let mut names = Vec::new(alloc);
    if !list.is_empty() {
        for name in list.split(',') {
            names.push(name.to_string(alloc)?)?;
        }
    }
    Ok(names)
}

/// A part of interface 1: its metric, family, name, servers and names.
fn part_of(alloc: Global, arguments: &[Vec<u8>]) -> Result<Option<Part>, NoMemory> {
    let [metric, family, name, servers, names] = arguments else {
        return Ok(None);
    };
    let family = match text(family) {
        "4" => Family::V4,
        "6" => Family::V6,
        _ => return Ok(None),
    };
    let (Ok(metric), Ok(name)) = (text(metric).parse::<u32>(), read_name(text(name))) else {
        return Ok(None);
    };
    Ok(Some(Part {
        metric,
        index: IfIndex { number: 1 },
        name,
        family,
        servers: servers_of(alloc, text(servers))?,
        names: names_of(alloc, text(names))?,
    }))
}

/// The text of parts of five arguments each, in quotes.
pub(crate) fn answer(alloc: Global, arguments: &[Vec<u8>]) -> Result<Option<String>, NoMemory> {
    let mut parts = Vec::new(alloc);
    for part in arguments.chunks(5) {
        if let Some(part) = part_of(alloc, part)? {
            parts.push(part)?;
        }
    }
    Ok(Some(format!(in alloc; "{:?}", resolver(alloc, &parts)?)?))
}
