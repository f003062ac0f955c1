//! The text of a lease, printed.

ghost use Rattle.std.specs.Prelude.{◌≡◌, ◌++◌, flat_map, IfOk, OnOk};
ghost use Rattle.net_types.specs.TextLines.{ended, lines_text};
ghost use Rattle.lease_text.specs.LeaseLines.{origin_lines};
ghost use Rattle.lease6_text.specs.Bounds.{FitsLease6, HasText6};
ghost use Rattle.lease6_text.specs.Leases.{ia_content, ias_content, lease6_content};
ghost use Rattle.lease6_text.specs.LeaseLines.{first_line, grant_lines, head_lines, holder_lines, ia_lines, ia_line, item_line, lease6_text, moment_text};

use crate::lease::{IaLease, Item6, Lease6};
use crate::typed::lease6_is_typed;
use lease_text::{AppendField, Origin, append_line, append_values};
use net_types::{Hex, NoMemory, append_bytes, append_number};
use std::alloc::Global;
use v6_options::IaKind;

/// A moment in milliseconds since 1970; None is never.
#[derive(Clone, Copy)]
struct Moment(Option<u64>);

impl AppendField for Moment {
    ghost shown = { λ moment. moment_text moment.0 };

    fn append(&self, into: &mut Vec<u8>) -> Result<(), NoMemory> {
        match self.0 {
            Some(at) => append_number(at, into),
            None => append_bytes(b"never", into),
        }
    }
}

/// Appends the line of which version the text is.
fn append_version(origin: Option<Origin>, into: &mut Vec<u8>) -> Result<(), NoMemory>
    ensures { OnOk result (into.new.items ≡ into.old.items ++ ended (first_line origin)) }
{
    match origin {
        None => append_line(b"dhcpcd-lease6 1", &(), into),
        Some(_) => append_line(b"dhcpcd-lease6 2", &(), into),
    }
}

/// Appends the lines of an origin.
#[tactic(auto, using(std::proofs::Common::append_assoc))]
fn append_origin(origin: Option<Origin>, into: &mut Vec<u8>) -> Result<(), NoMemory>
    ensures { OnOk result (into.new.items ≡ into.old.items ++ lines_text (origin_lines origin)) }
{
    match origin {
        None => Ok(()),
        Some(origin) => {
            append_line(b"mac ", &origin.mac, into)?;
            append_line(b"confirmed ", &origin.confirmed, into)?;
            Ok(())
        }
    }
}

/// Appends the lines of to whom it was granted.
fn append_holder(lease: &Lease6, into: &mut Vec<u8>) -> Result<(), NoMemory>
    ensures { OnOk result
        (into.new.items ≡ into.old.items ++ lines_text (holder_lines lease.now.origin lease.now.name)) }
{
    append_version(lease.origin, into)?;
    append_line(b"interface ", &lease.name, into)?;
    append_origin(lease.origin, into)?;
    Ok(())
}

/// Appends the lines of by whom it was granted, and of its times.
#[tactic(auto, using(std::proofs::Common::append_assoc))]
fn append_grant(lease: &Lease6, into: &mut Vec<u8>) -> Result<(), NoMemory>
    ensures { OnOk result (into.new.items ≡ into.old.items ++ lines_text (grant_lines (lease6_content lease.now))) }
{
    append_line(b"server ", &Hex(lease.server.as_slice()), into)?;
    append_line(b"t1 ", &Moment(lease.t1), into)?;
    append_line(b"t2 ", &Moment(lease.t2), into)
}

/// Appends the lines before those of the IAs.
fn append_head(lease: &Lease6, into: &mut Vec<u8>) -> Result<(), NoMemory>
    ensures { OnOk result (into.new.items ≡ into.old.items ++ lines_text (head_lines (lease6_content lease.now))) }
{
    append_holder(lease, into)?;
    append_grant(lease, into)?;
    Ok(())
}

/// Appends the line of an item of an IA of this kind.
fn append_item(kind: IaKind, item: Item6, into: &mut Vec<u8>) -> Result<(), NoMemory>
    ensures { OnOk result (into.new.items ≡ into.old.items ++ ended (item_line kind item)) }
{
    let moments = (Moment(item.preferred), Moment(item.valid));
    match kind {
        IaKind::Na => append_line(b"addr ", &(item.net.ip, moments), into),
        IaKind::Pd => append_line(b"prefix ", &(item.net, moments), into),
    }
}

/// Appends the line of an IA, before those of its items.
fn append_ia_line(kind: IaKind, iaid: u32, into: &mut Vec<u8>) -> Result<(), NoMemory>
    ensures { OnOk result (into.new.items ≡ into.old.items ++ ended (ia_line kind iaid)) }
{
    match kind {
        IaKind::Na => append_line(b"ia na ", &iaid, into),
        IaKind::Pd => append_line(b"ia pd ", &iaid, into),
    }
}

/// Appends the lines of an IA.
fn append_ia(ia: &IaLease, into: &mut Vec<u8>) -> Result<(), NoMemory>
    ensures { OnOk result (into.new.items ≡ into.old.items ++ lines_text (ia_lines (ia_content ia.now))) }
{
    append_ia_line(ia.kind, ia.iaid, into)?;
    for item in &ia.items {
        append_item(ia.kind, *item, into)?;
    }
    Ok(())
}

/// Appends the lines of IAs.
fn append_ias(ias: &[IaLease], into: &mut Vec<u8>) -> Result<(), NoMemory>
    ensures { OnOk result (into.new.items ≡ into.old.items ++ lines_text (flat_map ia_lines (ias_content ias.now))) }
{
    for ia in ias {
        append_ia(ia, into)?;
    }
    Ok(())
}

/// The lines before those of the values.
fn printed_front(alloc: Global, lease: &Lease6) -> Result<Vec<u8>, NoMemory>
    ensures { IfOk result
        (λ text. text.items
        ≡ lines_text (head_lines (lease6_content lease.now))
        ++ lines_text (flat_map ia_lines (lease6_content lease.now).ias)) }
{
    let mut text = Vec::new(alloc);
    append_head(lease, &mut text)?;
    append_ias(&lease.ias, &mut text)?;
    Ok(text)
}

/// The text of a lease. `read_lease6` reads a lease within the bounds back from it.
pub fn print6(alloc: Global, lease: &Lease6) -> Result<Vec<u8>, NoMemory>
    ensures text { IfOk result (λ text. text.items ≡ lease6_text (lease6_content lease.now)) }
    ensures good { FitsLease6 (lease6_content lease.now) → HasText6 (lease6_content lease.now) }
{
    lease6_is_typed(lease);
    let mut text = printed_front(alloc, lease)?;
    append_values(&lease.values, &mut text)?;
    append_bytes(b"end\n", &mut text)?;
    Ok(text)
}
