//! What is known of the managed interfaces once an opening is over.
ghost use Rattle.std.specs.Prelude.{◌≡◌, ◌≤◌, ◌++◌, [], ◌∷◌, codes, length, map, IfOk, IfNone, IfSome, List, option_and_then, option_map};
ghost use Rattle.std.specs.List.{AllByRecursion};
ghost use Rattle.net_types.specs.NameText.{name_text};
ghost use Rattle.lease_text.specs.Bounds.{FitsLease};
ghost use Rattle.lease_text.specs.Leases.{lease_content};
ghost use Rattle.lease6_text.specs.Bounds.{HasText6, IsDuid};
ghost use Rattle.lease6_text.specs.Leases.{lease6_content};
ghost use Rattle.settings.specs.Fitting.{AreManaged, FitsManaged};
ghost use Rattle.script_model.specs.IfaceSets.{is_up};
ghost use Rattle.kept_files.specs.ClientModel.HostDuid.{duid_by, host_duid};
ghost use Rattle.kept_files.specs.ClientModel.KeptLeases.{kept_by};
ghost use Rattle.kept_files.specs.ClientModel.KeptLeases6.{kept6_by};
ghost use Rattle.audit_seats.specs.TurnModel.Loading.{duid_file, lease4_file, lease6_file};
ghost use Rattle.audit_words.specs.EvidenceWords.HostDuids.{read_among};
ghost use Rattle.transcript_lines.specs.Contents.{reading_of};
ghost use Rattle.audit_seats.specs.AuditModel.Auditing.{Living, site_in};
ghost use Rattle.audit_seats.specs.AuditModel.Showing.{site_by};
ghost use Rattle.audit_words.specs.Shown.{site_shown};
ghost use Rattle.audit_sites.specs.Openings.{Opens};
ghost use Rattle.audit_sites.specs.Reads.{reads_of, text_read};

use crate::opening::Opening;
use crate::reads::{FileRead, first_reading};
use audit_seats::Seat;
use audit_words::Site;
use kept_files::{host_duid, kept4_in, kept6_in};
use lease_text::Lease4;
use lease6_text::Lease6;
use net_types::{Mac, Name, NoMemory, append_bytes};
use settings::Managed;
use std::alloc::Global;
use transcript_lines::FileReading;
use v6_options::Duid;

/// The file of the host's DUID.
const DUID_FILE: &[u8] = b"duid";

/// How the file of an interface's DHCPv4 lease ends.
const LEASE4_END: &[u8] = b".lease4";

/// How that of its DHCPv6 lease does.
const LEASE6_END: &[u8] = b".lease6";

/// The name of a file of an interface.
#[tactic(auto, unfolding(net_types::specs::NameText::name_text))]
fn file_of(alloc: Global, name: &Name, end: &[u8]) -> Result<Vec<u8>, NoMemory>
    ensures { IfOk result (λ file. file.items ≡ name_text name.now ++ end.now) }
{
    let mut file = Vec::new(alloc);
    append_bytes(name.as_bytes(), &mut file)?;
    append_bytes(end, &mut file)?;
    Ok(file)
}

/// The bytes of a file, where it was read.
fn text_of(reading: Option<&FileReading>) -> Option<&[u8]>
    ensures { option_map (λ t. t.now) result
        ≡ option_and_then text_read (option_map (λ r. reading_of r.now) reading.entry) }
{
    match reading {
        Some(FileReading::Found(bytes)) => Some(bytes.as_slice()),
        Some(FileReading::Missing) | Some(FileReading::Unread) | None => None,
    }
}

/// The bytes that the first reading of a file gave.
fn text_among<'a>(reads: &'a [FileRead], name: &[u8]) -> Option<&'a [u8]>
    ensures { option_map (λ t. t.now) result ≡ option_and_then text_read (read_among name.now (reads_of reads.now)) }
{
    text_of(first_reading(reads, name))
}

/// The DUID of the host.
fn duid_of(alloc: Global, managed: &[Managed], reads: &[FileRead]) -> Result<Option<Duid>, NoMemory>
    requires { AreManaged managed.now }
    ensures duid { IfOk result
        (λ duid. IfSome duid (λ d. d.bytes.items ≡ host_duid managed.now (read_among duid_file (reads_of reads.now)))) }
    ensures none { IfOk result (λ duid. IfNone duid (managed.now ≡ [])) }
{
    let Some(first) = managed.first() else {
        return Ok(None);
    };
    Ok(Some(host_duid(alloc, first, text_among(reads, DUID_FILE))?))
}

/// The DHCPv4 lease that was kept for an interface.
fn lease4_of(alloc: Global, m: &Managed, reads: &[FileRead]) -> Result<Option<Lease4>, NoMemory>
    ensures kept { IfOk result
        (λ kept. option_map lease_content kept
        ≡ option_and_then (kept_by m.now.spec) (read_among (lease4_file m.now) (reads_of reads.now))) }
    ensures fits { IfOk result (λ kept. IfSome (option_map lease_content kept) FitsLease) }
{
    let file = file_of(alloc, &m.spec.name, LEASE4_END)?;
    match text_among(reads, &file) {
        Some(text) => kept4_in(alloc, &m.spec, text),
        None => Ok(None),
    }
}

/// The DHCPv6 lease that was kept for it.
fn lease6_of(alloc: Global, m: &Managed, reads: &[FileRead]) -> Result<Option<Lease6>, NoMemory>
    ensures kept { IfOk result
        (λ kept. option_map lease6_content kept
        ≡ option_and_then (kept6_by m.now.spec) (read_among (lease6_file m.now) (reads_of reads.now))) }
    ensures fits { IfOk result (λ kept. IfSome (option_map lease6_content kept) HasText6) }
{
    let file = file_of(alloc, &m.spec.name, LEASE6_END)?;
    match text_among(reads, &file) {
        Some(text) => kept6_in(alloc, &m.spec, text),
        None => Ok(None),
    }
}

/// Whether an interface has carrier at the start.
fn is_up(up: u64, index: u32) -> bool
    requires { (1 ≤ index) × (index ≤ 64) }
    ensures { result ≡ is_up up index }
{
    (up >> (index - 1)) % 2 == 1
}

/// The DUID of these bytes.
fn duid_with(alloc: Global, bytes: &[u8]) -> Result<Duid, NoMemory>
    requires least { 2 ≤ length bytes.now }
    requires most { length bytes.now ≤ 130 }
    ensures same { IfOk result (λ duid. duid.bytes.items ≡ bytes.now) }
    ensures fits { IfOk result (λ duid. IsDuid duid.bytes.items) }
{
    match Duid::new(alloc, bytes)? {
        Some(duid) => Ok(duid),
        None => unreachable!(),
    }
}

/// A copy of a DUID.
fn duid_copied(alloc: Global, duid: &Duid) -> Result<Duid, NoMemory>
    ensures same { IfOk result (λ copy. copy.bytes.items ≡ duid.now.bytes.items) }
    ensures fits { IfOk result (λ copy. IsDuid copy.bytes.items) }
{
    duid_with(alloc, duid.as_slice())
}

/// What is known of an interface.
fn seat_of(
    alloc: Global,
    m: Managed,
    duid: &Duid,
    own: &[Mac],
    up: u64,
    reads: &[FileRead],
) -> Result<Seat, NoMemory>
    requires { FitsManaged m }
    ensures { (all : List Managed)
        → duid.now.bytes.items ≡ host_duid all (read_among duid_file (reads_of reads.now))
        → IfOk result (λ seat. site_shown seat ≡ site_by all own.now up (reads_of reads.now) m) }
{
    let kept4 = lease4_of(alloc, &m, reads)?;
    let kept6 = lease6_of(alloc, &m, reads)?;
    let duid = duid_copied(alloc, duid)?;
    let mut macs = Vec::new(alloc);
    macs.extend_from_slice(own)?;
    let up = is_up(up, m.spec.index.number);
    Ok(Seat::new(Site {
        managed: m,
        duid,
        own: macs,
        up,
        kept4,
        kept6,
    }))
}

/// What is known of some managed interfaces.
fn seats_with(
    alloc: Global,
    managed: Vec<Managed>,
    duid: &Duid,
    own: &[Mac],
    up: u64,
    reads: &[FileRead],
) -> Result<Vec<Seat>, NoMemory>
    requires { AreManaged managed.items }
    ensures { (all : List Managed)
        → duid.now.bytes.items ≡ host_duid all (read_among duid_file (reads_of reads.now))
        → IfOk result
        (λ seats. map site_shown seats.items ≡ map (site_by all own.now up (reads_of reads.now)) managed.items) }
{
    let mut seats = Vec::new(alloc);
    for m in managed {
        let next = seat_of(alloc, m, duid, own, up, reads)?;
        seats.push(next)?;
    }
    Ok(seats)
}

/// What is known of all managed interfaces once the opening is over.
pub fn seats_of(alloc: Global, opening: Opening) -> Result<Vec<Seat>, NoMemory>
    ensures { IfOk result
        (λ seats. (living : Living)
        → Opens opening living
        → map site_shown seats.items ≡ map (site_in living) living.managed) }
{
    let Opening {
        managed,
        own,
        begin,
        reads,
    } = opening;
    let managed = managed.into_vec();
    match duid_of(alloc, &managed, &reads)? {
        Some(duid) => seats_with(alloc, managed, &duid, &own, begin.up, &reads),
        None => Ok(Vec::new(alloc)),
    }
}
