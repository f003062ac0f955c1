//! What a client reads of a message's options.

ghost use Rattle.std.specs.Prelude.{◌≡◌, ◌<◌, ◌≤◌, ◌++◌, length, option_map, IfNone, IfOk, IfSome, OnOk};
ghost use Rattle.v4_options.specs.Numbers.{number_at};
ghost use Rattle.v4_options.specs.OptionValue.{bytes_at, value_of};
ghost use Rattle.v4_options.specs.OptionViews.{view_instances};
ghost use Rattle.lease_text.specs.Leases.{values_content};
ghost use Rattle.v4_client.specs.Granting.{class_len, kept_of, kept_values, mask_taken, net_len, terms_granted, times_of, times_taken, told_times, unless_refused, usual_times};
ghost use Rattle.v4_client.specs.Messages.{are_there, arrival_of, is_among, is_there};
ghost use Rattle.v4_client.specs.Settings.{settings_content};

use crate::answers::Arrival4;
use crate::setup::Set4;
use crate::states::Exchange4;
use arrayvec::ArrayVec;
use lease_text::{INFINITE_LEASE, Origin, Terms4, VALUE_LIMIT, Value};
use net_types::{Ip4, Net4, NoMemory};
use option_index::{Found, OptionIndex};
use std::alloc::Global;
use v4_options::{KEPT_CODES, OptionView, code, is_well_formed, pieces_of, value};

/// The renewal and rebinding times of a lease (T1 and T2), in seconds from its start.
#[derive(Clone, Copy, PartialEq, Eq)]
pub struct Times4 {
    pub t1: u32,
    pub t2: u32,
}

/// The bytes of a code's instances, end to end, where they are at most `VALUE_LIMIT`.
fn joined_at(view: &OptionView, code: u8) -> Option<ArrayVec<u8, VALUE_LIMIT>>
    ensures long { IfNone result (VALUE_LIMIT < length (bytes_at code (view_instances view.now))) }
    ensures joined { IfSome result (λ bytes. bytes.items ≡ bytes_at code (view_instances view.now)) }
{
    let mut bytes = ArrayVec::new();
    'pieces: for piece in pieces_of(view, code) {
        if bytes.try_extend_from_slice(piece).is_err() {
            return None;
        }
    }
    Some(bytes)
}

/// Whether an option is there: it has an instance, and its value the form of its code and at most `VALUE_LIMIT` bytes.
/// The value of one instance is judged in place, and that of several joined for it.
fn is_there(view: &OptionView, code: u8) -> bool
    ensures { result ≡ is_there (view_instances view.now) code }
{
    let mut pieces = pieces_of(view, code);
    let Some(first) = pieces.next() else {
        return false;
    };
    if pieces.next().is_none() {
        return first.len() <= VALUE_LIMIT && is_well_formed(code, first);
    }
    match joined_at(view, code) {
        Some(bytes) => is_well_formed(code, bytes.as_slice()),
        None => false,
    }
}

/// Whether all these options are there.
pub(crate) fn are_there(view: &OptionView, codes: &[u8]) -> bool
    ensures { result ≡ are_there (view_instances view.now) codes.now }
{
    codes.iter().all(|code| is_there(view, *code))
}

/// The length of an address by its class (RFC 791, section 3.2).
fn class_len(address: Ip4) -> u8
    ensures value { result ≡ class_len address }
    ensures within { result ≤ 32 }
{
    let first = address.number >> 24;
    if first < 128 {
        8
    } else if first < 192 {
        16
    } else {
        24
    }
}

/// The length of an address: the leading ones of the mask, where it has some.
fn net_len(address: Ip4, mask: Option<Ip4>) -> u8
    ensures value { result ≡ net_len address mask }
    ensures within { result ≤ 32 }
{
    match mask {
        Some(mask) if mask.mask_len() != 0 => mask.mask_len(),
        _ => class_len(address),
    }
}

/// T1 and T2 by half and seven eighths of the lease time (RFC 2131, section 4.4.5).
fn usual_times(lease: u32) -> Times4
    ensures value { result ≡ usual_times lease }
    ensures ordered { result.t1 ≤ result.t2 }
    ensures within { result.t2 ≤ lease }
{
    let t2 = u64::from(lease) * 7 / 8;
    Times4 {
        t1: lease / 2,
        t2: t2 as u32,
    }
}

/// T1 and T2 as the server tells them, where they are in order within the lease.
fn told_times(lease: u32, t1: Option<u32>, t2: Option<u32>) -> Times4
    ensures value { result ≡ told_times lease t1 t2 }
    ensures ordered { result.t1 ≤ result.t2 }
    ensures within { result.t2 ≤ lease }
{
    match (t1, t2) {
        (Some(t1), Some(t2)) if 0 < t1 && t1 < t2 && t2 < lease => Times4 { t1, t2 },
        _ => usual_times(lease),
    }
}

/// T1 and T2 of a lease.
fn times_of(lease: u32, t1: Option<u32>, t2: Option<u32>) -> Times4
    ensures value { result ≡ times_of lease t1 t2 }
    ensures ordered { result.t1 ≤ result.t2 }
    ensures within { result.t2 ≤ lease }
    ensures endless { lease ≡ INFINITE_LEASE → result.t1 ≡ INFINITE_LEASE }
{
    if lease == INFINITE_LEASE {
        Times4 {
            t1: INFINITE_LEASE,
            t2: INFINITE_LEASE,
        }
    } else {
        told_times(lease, t1, t2)
    }
}

fn is_among(codes: &[u8], code: u8) -> bool
    ensures { result ≡ is_among codes.now code }
{
    codes.contains(&code)
}

/// The number that a code's value is, unless the code is refused.
fn number_taken(index: &OptionIndex, refused: &[u8], code: u8) -> Option<u32>
    ensures { result ≡ unless_refused refused.now code (number_at code index.now) }
{
    if is_among(refused, code) {
        return None;
    }
    index.u32_at(code)
}

/// The mask of the network, unless it is refused.
fn mask_taken(index: &OptionIndex, refused: &[u8]) -> Option<Ip4>
    ensures { result ≡ mask_taken refused.now index.now }
{
    if is_among(refused, code::SUBNET_MASK) {
        return None;
    }
    index.addr_at(code::SUBNET_MASK)
}

/// T1 and T2 of a lease of so many seconds.
fn times_taken(index: &OptionIndex, refused: &[u8], lease: u32) -> Times4
    ensures value { result ≡ times_taken refused.now index.now lease }
    ensures ordered { result.t1 ≤ result.t2 }
    ensures within { result.t2 ≤ lease }
    ensures endless { lease ≡ INFINITE_LEASE → result.t1 ≡ INFINITE_LEASE }
{
    let t1 = number_taken(index, refused, code::RENEWAL_TIME);
    let t2 = number_taken(index, refused, code::REBINDING_TIME);
    times_of(lease, t1, t2)
}

/// The terms of the lease that an exchange is granted. Its origin is the interface and the moment of the message.
pub(crate) fn terms_granted(
    arrival: &Arrival4,
    set: &Set4,
    exchange: Exchange4,
    server: Ip4,
    lease: u32,
) -> Terms4
    ensures value { result ≡ terms_granted (settings_content set.now) (arrival_of arrival.now) exchange server lease }
{
    let index = OptionIndex::of(&arrival.message.options);
    let times = times_taken(&index, &set.refused, lease);
    Terms4 {
        origin: Some(Origin {
            mac: set.iface.mac,
            confirmed: arrival.at,
        }),
        net: Net4 {
            ip: exchange.address,
            len: net_len(exchange.address, mask_taken(&index, &set.refused)),
        },
        server,
        server_mac: arrival.source,
        first: exchange.first,
        lease,
        t1: times.t1,
        t2: times.t2,
    }
}

/// The value of a code in memory of its own. Only a value of several instances is walked for, in the view.
fn value_found(
    alloc: Global,
    index: &OptionIndex,
    view: &OptionView,
    code: u8,
) -> Result<Option<Vec<u8>>, NoMemory>
    requires { index.now ≡ view_instances view.now }
    ensures { IfOk result (λ value. option_map (λ v. v.items) value ≡ value_of code index.now) }
{
    match index.value_at(code) {
        Found::Absent => Ok(None),
        Found::Whole(bytes) => Ok(Some(Vec::from_slice(alloc, bytes)?)),
        Found::Split => value(alloc, view, code),
    }
}

/// Keeps the value of a code, where it is there, of the form of its code, not too long, and not refused.
fn push_kept(
    alloc: Global,
    kept: &mut Vec<Value>,
    code: u8,
    index: &OptionIndex,
    view: &OptionView,
    refused: &[u8],
) -> Result<(), NoMemory>
    requires { index.now ≡ view_instances view.now }
    ensures { OnOk result
        (values_content kept.new.items ≡ values_content kept.old.items ++ kept_of refused.now index.now code) }
{
    if is_among(refused, code) {
        return Ok(());
    }
    let Some(bytes) = value_found(alloc, index, view, code)? else {
        return Ok(());
    };
    if bytes.len() > VALUE_LIMIT {
        return Ok(());
    }
    if !is_well_formed(code, &bytes) {
        return Ok(());
    }
    kept.push(Value {
        code: u16::from(code),
        bytes,
    })?;
    Ok(())
}

/// The values that a lease keeps.
pub(crate) fn kept_values(
    alloc: Global,
    view: &OptionView,
    refused: &[u8],
) -> Result<Vec<Value>, NoMemory>
    ensures { IfOk result (λ values. values_content values.items ≡ kept_values refused.now (view_instances view.now)) }
{
    let index = OptionIndex::of(view);
    let mut values = Vec::new(alloc);
    for code in KEPT_CODES {
        push_kept(alloc, &mut values, code, &index, view, refused)?;
    }
    Ok(values)
}
