//! Options of DHCPv6.

use crate::asking::word;
use net_types::{NoMemory, append_text};
use std::alloc::Global;
use v6_options::{Duid, check_options, code, dns6_of, options_of, search6_of};

/// How many bytes a DUID has.
fn duid_said(alloc: Global, bytes: &[u8]) -> Result<String, NoMemory> {
    match Duid::new(alloc, bytes)? {
        Some(duid) => Ok(format!(in alloc; "{} bytes", duid.as_slice().len())?),
        None => Ok("none".to_string(alloc)?),
    }
}

/// Servers of names.
fn servers_said(alloc: Global, value: &[u8]) -> Result<String, NoMemory> {
    let Some(servers) = dns6_of(alloc, value)? else {
        return Ok("none".to_string(alloc)?);
    };
    let mut said = "servers".to_string(alloc)?;
    for server in &servers {
        append_text(format_args!(" {server}"), &mut said)?;
    }
    Ok(said)
}

/// The names of a search list.
fn search_said(alloc: Global, value: &[u8]) -> Result<String, NoMemory> {
    match search6_of(alloc, value)? {
        Some(names) => Ok(format!(in alloc; "{names:?}")?),
        None => Ok("none".to_string(alloc)?),
    }
}

/// How deep IAs can stand within each other: the outermost then has a value of 65,532 bytes.
const DEPTH: usize = 4096;

/// IAs within each other, each with its IAID, T1 and T2 alone before the next one. The innermost says that it has a
/// value of so many bytes, and has 12.
fn nested(alloc: Global, innermost: u16) -> Result<Vec<u8>, NoMemory> {
    let mut area = Vec::new(alloc);
    for inner in (1..DEPTH).rev() {
        area.extend_from_slice(&code::IA_NA.to_be_bytes())?;
        area.extend_from_slice(&((16 * inner + 12) as u16).to_be_bytes())?;
        area.extend_from_slice(&[0; 12])?;
    }
    area.extend_from_slice(&code::IA_NA.to_be_bytes())?;
    area.extend_from_slice(&innermost.to_be_bytes())?;
    area.extend_from_slice(&[0; 12])?;
    Ok(area)
}

/// What is wrong with IAs within each other, and how long the values of the outermost options are.
fn nested_said(alloc: Global, innermost: u16) -> Result<String, NoMemory> {
    let area = nested(alloc, innermost)?;
    let mut said = match check_options(&area, 4) {
        Ok(()) => "whole".to_string(alloc)?,
        Err(fault) => format!(in alloc; "malformed at {}", fault.place)?,
    };
    for option in options_of(&area) {
        append_text(format_args!(", {} bytes", option.value.len()), &mut said)?;
    }
    Ok(said)
}

/// The answer to a vector of options.
pub(crate) fn answer(
    alloc: Global,
    asked: &str,
    arguments: &[Vec<u8>],
) -> Result<Option<String>, NoMemory> {
    match (asked, arguments) {
        ("duid", [bytes]) => Ok(Some(duid_said(alloc, bytes)?)),
        ("servers6", [value]) => Ok(Some(servers_said(alloc, value)?)),
        ("search6", [value]) => Ok(Some(search_said(alloc, value)?)),
        ("nested", [innermost]) => match word(innermost) {
            Some(innermost) => Ok(Some(nested_said(alloc, innermost)?)),
            None => Ok(None),
        },
        _ => Ok(None),
    }
}
