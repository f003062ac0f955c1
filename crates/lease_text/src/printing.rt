//! The text of a lease, printed.

ghost use Rattle.std.specs.Prelude.{◌≡◌, ◌++◌, map, take, drop, IfOk, OnOk, OnErr};
ghost use Rattle.net_types.specs.Cutting.{StandsInFront};
ghost use Rattle.net_types.specs.TextLines.{ended, lines_text};
ghost use Rattle.lease_text.specs.Bounds.{FitsLease, HasText};
ghost use Rattle.lease_text.specs.Leases.{lease_content, value_content, values_content};
ghost use Rattle.lease_text.specs.LeaseLines.{version_line, origin_lines, holder_lines, grant_lines, head_lines, option_line, lease4_text};

use crate::lease::{Lease4, Origin, Value};
use crate::typed::lease_is_typed;
use line_grammar::append_line;
use net_types::{Hex, NoMemory, append_bytes};
use std::alloc::Global;

/// Room for the text of a lease with some values, in bytes; a longer text grows.
const TEXT_ROOM: usize = 512;

/// Appends the line of what the text is.
fn append_version(origin: Option<Origin>, into: &mut Vec<u8>) -> Result<(), NoMemory>
    ensures { OnOk result (into.new.items ≡ into.old.items ++ ended (version_line origin)) }
{
    match origin {
        None => append_line(b"dhcpcd-lease4 1", &(), into),
        Some(_) => append_line(b"dhcpcd-lease4 2", &(), into),
    }
}

/// Appends the lines of where the lease comes from.
#[tactic(auto, using(std::proofs::Common::append_assoc))]
fn append_origin(origin: Option<Origin>, into: &mut Vec<u8>) -> Result<(), NoMemory>
    ensures { OnOk result (into.new.items ≡ into.old.items ++ lines_text (origin_lines origin)) }
{
    match origin {
        None => Ok(()),
        Some(origin) => {
            append_line(b"mac ", &origin.mac, into)?;
            append_line(b"confirmed ", &origin.confirmed, into)?;
            Ok(())
        }
    }
}

/// Appends the lines of whose lease it is.
fn append_holder(lease: &Lease4, into: &mut Vec<u8>) -> Result<(), NoMemory>
    ensures { OnOk result (into.new.items ≡ into.old.items ++ lines_text (holder_lines (lease_content lease.now))) }
{
    append_version(lease.origin, into)?;
    append_line(b"interface ", &lease.name, into)?;
    append_origin(lease.origin, into)?;
    Ok(())
}

/// Appends the lines of what is leased, and by whom.
#[tactic(auto, using(std::proofs::Common::append_assoc))]
fn append_grant(lease: &Lease4, into: &mut Vec<u8>) -> Result<(), NoMemory>
    ensures { OnOk result
        (into.new.items ≡ into.old.items ++ lines_text (take 3 (grant_lines (lease_content lease.now)))) }
{
    append_line(b"address ", &lease.net, into)?;
    append_line(b"server ", &lease.server, into)?;
    append_line(b"servermac ", &lease.server_mac, into)?;
    Ok(())
}

/// Appends the lines of its times.
#[tactic(auto, using(std::proofs::Common::append_assoc))]
fn append_times(lease: &Lease4, into: &mut Vec<u8>) -> Result<(), NoMemory>
    ensures { OnOk result
        (into.new.items ≡ into.old.items ++ lines_text (drop 3 (grant_lines (lease_content lease.now)))) }
{
    append_line(b"first ", &lease.first, into)?;
    append_line(b"lease ", &lease.lease, into)?;
    append_line(b"t1 ", &lease.t1, into)?;
    append_line(b"t2 ", &lease.t2, into)?;
    Ok(())
}

/// Appends the lines before those of the values.
fn append_head(lease: &Lease4, into: &mut Vec<u8>) -> Result<(), NoMemory>
    ensures { OnOk result (into.new.items ≡ into.old.items ++ lines_text (head_lines (lease_content lease.now))) }
{
    append_holder(lease, into)?;
    append_grant(lease, into)?;
    append_times(lease, into)?;
    Ok(())
}

/// Appends the line of a value, or a front of it where memory runs out.
fn append_value(value: &Value, into: &mut Vec<u8>) -> Result<(), NoMemory>
    ensures ok { OnOk result (into.new.items ≡ into.old.items ++ ended (option_line (value_content value.now))) }
    ensures err { OnErr result (StandsInFront into.old.items into.new.items) }
{
    append_line(b"option ", &(value.code, Hex(&value.bytes)), into)
}

/// Appends the lines of values, which a lease of either family has, or a front of them where memory runs out.
pub fn append_values(values: &[Value], into: &mut Vec<u8>) -> Result<(), NoMemory>
    ensures ok { OnOk result
        (into.new.items ≡ into.old.items ++ lines_text (map option_line (values_content values.now))) }
    ensures err { OnErr result (StandsInFront into.old.items into.new.items) }
{
    for value in values {
        append_value(value, into)?;
    }
    Ok(())
}

/// The text of a lease. `read_lease4` reads a lease within the bounds back from it.
pub fn print4(alloc: Global, lease: &Lease4) -> Result<Vec<u8>, NoMemory>
    ensures text { IfOk result (λ text. text.items ≡ lease4_text (lease_content lease.now)) }
    ensures good { FitsLease (lease_content lease.now) → HasText (lease_content lease.now) }
{
    lease_is_typed(lease);
    let mut text = Vec::with_capacity(alloc, TEXT_ROOM)?;
    append_head(lease, &mut text)?;
    append_values(&lease.values, &mut text)?;
    append_bytes(b"end\n", &mut text)?;
    Ok(text)
}
