//! Reads a server's DHCPv6 message with its IAs, servers and search list many times, for the figure in
//! bench/README.md. The first argument is how many times.
#![tactic(auto)]

use net_types::NoMemory;
use std::alloc::Global;
use std::{env, io};
use v6_message::{Msg6, ias_of, read6};
use v6_options::{dns6_of, search6_of};

/// How many readings there are without an argument.
const READINGS: u32 = 100_000;

/// A Reply: type and xid; the client's DUID; the server's; an IA_NA with an address; an IA_PD with a prefix; a server
/// of names; a search list.
const REPLY: [u8; 148] = *b"\x07\x00\x00\x02\
    \x00\x01\x00\x0a\x00\x03\x00\x01\x02\x00\x00\x00\x00\x01\
    \x00\x02\x00\x0a\x00\x03\x00\x01\x02\x00\x00\x00\x00\x63\
    \x00\x03\x00\x28\
    \x00\x00\x00\x01\x00\x00\x03\xe8\x00\x00\x07\xd0\
    \x00\x05\x00\x18\
    \x20\x01\x0d\xb8\x00\x00\x00\x00\x00\x00\x00\x00\x00\x00\x00\x05\
    \x00\x00\x0b\xb8\x00\x00\x17\x70\
    \x00\x19\x00\x29\
    \x00\x00\x00\x01\x00\x00\x03\xe8\x00\x00\x07\xd0\
    \x00\x1a\x00\x19\
    \x00\x00\x0b\xb8\x00\x00\x17\x70\
    \x38\x20\x01\x0d\xb8\x00\x01\x00\x00\x00\x00\x00\x00\x00\x00\x00\x00\
    \x00\x17\x00\x10\
    \x20\x01\x0d\xb8\x00\x00\x00\x00\x00\x00\x00\x00\x00\x00\x00\x53\
    \x00\x18\x00\x03\x01a\x00";

/// How many addresses, prefixes, servers and names a message gives.
fn count(alloc: Global, message: &Msg6) -> Result<usize, NoMemory> {
    let mut count = 0usize;
    for ia in &ias_of(alloc, message)? {
        count = count.wrapping_add(ia.items.len());
    }
    if let Some(servers) = dns6_of(alloc, message.dns)? {
        count = count.wrapping_add(servers.len());
    }
    if let Some(names) = search6_of(alloc, message.search)? {
        count = count.wrapping_add(names.len());
    }
    Ok(count)
}

/// How many there are in all readings.
fn read_all(alloc: Global, readings: u32) -> Result<usize, NoMemory> {
    let mut payload = REPLY;
    let mut all = 0usize;
    for reading in 0..readings {
        payload[3] = (reading % 256) as u8;
        if let Ok(message) = read6(&payload) {
            all = all.wrapping_add(count(alloc, &message)?);
        }
    }
    Ok(all)
}

/// The first argument, where it is a number.
fn readings(rt: &HostRuntime) -> io::Result<u32> {
    let Some(word) = env::args(rt)?.nth(1) else {
        return Ok(READINGS);
    };
    Ok(word.as_str().parse::<u32>().unwrap_or(READINGS))
}

fn main(rt: HostRuntime) -> io::Result<()> {
    let readings = readings(&rt)?;
    match read_all(rt.alloc(), readings) {
        Ok(count) => println!(rt;
            "{readings} readings, {count} addresses, prefixes, servers and names"
        ),
        Err(_) => println!(rt; "no memory"),
    }
}
