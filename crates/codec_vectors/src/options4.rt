//! Options of DHCPv4 in their areas, by a walk over them and by an index.

use crate::asking::text;
use net_types::{Hex, NoMemory, append_text};
use option_index::{Found, OptionIndex};
use std::alloc::Global;
use v4_options::{
    Areas, Malformed, OptionView, addr_at, addr_of, addrs_of, are_routes, byte_at, options_of,
    pieces_of, present, routes_of, u16_of, u32_at, u32_of, value,
};

/// How many bytes an area may have.
const AREA_MAX: usize = 65_535;

/// The options of three areas: those of the message, of the field file, and of the field sname; or where they are
/// malformed. None where there are no such areas.
fn view_of(arguments: &[Vec<u8>]) -> Option<Result<OptionView<'_>, Malformed>> {
    let [options, file, sname] = arguments else {
        return None;
    };
    if options.len() > AREA_MAX || file.len() > AREA_MAX || sname.len() > AREA_MAX {
        return None;
    }
    Some(options_of(Areas {
        options,
        file,
        sname,
    }))
}

/// What option 52 says of areas, or where they are malformed.
fn areas_said(alloc: Global, arguments: &[Vec<u8>]) -> Result<Option<String>, NoMemory> {
    match view_of(arguments) {
        Some(Ok(view)) => Ok(Some(format!(in alloc; "overload {:?}", view.overload)?)),
        Some(Err(fault)) => Ok(Some(format!(in alloc; "malformed at {}", fault.place)?)),
        None => Ok(None),
    }
}

/// The value of a code, and its pieces, by a walk over the options.
fn walked(alloc: Global, view: &OptionView<'_>, code: u8) -> Result<String, NoMemory> {
    let mut said = "pieces".to_string(alloc)?;
    for piece in pieces_of(view, code) {
        append_text(format_args!(" {}", Hex(piece)), &mut said)?;
    }
    let value = match value(alloc, view, code)? {
        Some(value) => format!(in alloc; "{}", Hex(&value))?,
        None => "none".to_string(alloc)?,
    };
    let (byte, number) = (byte_at(view, code), u32_at(view, code));
    append_text(
        format_args!(" value {value} byte {byte:?} number {number:?}"),
        &mut said,
    )?;
    if let Some(address) = addr_at(view, code) {
        append_text(format_args!(" address {address}"), &mut said)?;
    }
    if present(view, code) {
        said.push_str(" present")?;
    }
    Ok(said)
}

/// The same by an index of the options.
fn indexed(alloc: Global, view: &OptionView<'_>, code: u8) -> Result<String, NoMemory> {
    let index = OptionIndex::of(view);
    let value = match index.value_at(code) {
        Found::Absent => "absent".to_string(alloc)?,
        Found::Whole(value) => format!(in alloc; "whole {}", Hex(value))?,
        Found::Split => "split".to_string(alloc)?,
    };
    let (byte, number) = (index.byte_at(code), index.u32_at(code));
    let mut said = format!(in alloc; "{value} byte {byte:?} number {number:?}")?;
    if let Some(address) = index.addr_at(code) {
        append_text(format_args!(" address {address}"), &mut said)?;
    }
    if index.present(code) {
        said.push_str(" present")?;
    }
    Ok(said)
}

/// What areas have of a code.
fn option_said(alloc: Global, code: u8, arguments: &[Vec<u8>]) -> Result<Option<String>, NoMemory> {
    let Some(Ok(view)) = view_of(arguments) else {
        return Ok(None);
    };
    let walked = walked(alloc, &view, code)?;
    let indexed = indexed(alloc, &view, code)?;
    Ok(Some(format!(in alloc; "{walked}; {indexed}")?))
}

/// The numbers and addresses that a value is.
fn numbers_said(alloc: Global, value: &[u8]) -> Result<String, NoMemory> {
    let (word, long) = (u16_of(value), u32_of(value));
    let mut said = format!(in alloc; "{word:?} {long:?}")?;
    if let Some(address) = addr_of(value) {
        append_text(format_args!(" address {address}"), &mut said)?;
    }
    if let Some(addresses) = addrs_of(alloc, value)? {
        said.push_str(" addresses")?;
        for address in &addresses {
            append_text(format_args!(" {address}"), &mut said)?;
        }
    }
    Ok(said)
}

/// The routes of a value.
fn routes_said(alloc: Global, value: &[u8]) -> Result<String, NoMemory> {
    let mut said = format!(in alloc; "{}", are_routes(value))?;
    if let Some(routes) = routes_of(alloc, value)? {
        for route in &routes {
            append_text(format_args!(", {} by {}", route.dest, route.via), &mut said)?;
        }
    }
    Ok(said)
}

/// The answer to a vector of options.
pub(crate) fn answer(
    alloc: Global,
    word: &str,
    arguments: &[Vec<u8>],
) -> Result<Option<String>, NoMemory> {
    match (word, arguments) {
        ("numbers", [value]) => Ok(Some(numbers_said(alloc, value)?)),
        ("routes", [value]) => Ok(Some(routes_said(alloc, value)?)),
        ("areas", areas) => areas_said(alloc, areas),
        ("option", [code, areas @ ..]) => match text(code).parse::<u8>() {
            Ok(code) => option_said(alloc, code, areas),
            Err(_) => Ok(None),
        },
        _ => Ok(None),
    }
}
