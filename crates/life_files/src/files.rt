//! The files that a life reads as it opens.
ghost use Rattle.std.specs.Prelude.{◌≡◌, ◌++◌, Some, map, slice_get, IfOk, IfErr, OnOk, option_map, option_to_list};
ghost use Rattle.std.specs.String.{string_bytes};
ghost use Rattle.world.specs.FileNames.{IsFileName};
ghost use Rattle.lease_file.specs.FileReads.{got_reading};
ghost use Rattle.settings.specs.Fitting.{AreManaged, FitsManaged};
ghost use Rattle.client_model.specs.Fitting.{AreBeginnings, FitsBeginning};
ghost use Rattle.client_core.specs.IfaceMachines.Beginnings.{beginning_of};
ghost use Rattle.device_calls.specs.Does.{Does};
ghost use Rattle.device_calls.specs.Fronts.{HasBegun};
ghost use Rattle.turn_model.specs.KeptFiles as model;
ghost use Rattle.turn_model.specs.Loading as loading;
ghost use Rattle.turn_model.specs.Loading.{known_by, file_with, reading_if};
ghost use Rattle.life_files.specs.Files.{known_of, keeps_of};
ghost use Rattle.life_files.specs.Loading.{loading_own, LoadsOne, LoadsLeases, LoadsOwn, LoadsAll};

use crate::duids::{duid_copied, host_duid, some_need_duid};
use crate::filed::{first_lease, first_lease6};
use crate::keeping::{Keeps, KeptFile, Known};
use crate::names::{DUID_FILE, RESOLVER_FILE, lease4_file, lease6_file};
use crate::stores::read;
use client_core::{Beginning, runs_dhcp4, runs_dhcp6};
use lease_file::Got;
use life_devices::Outside;
use net_types::NoMemory;
use settings::Managed;
use std::alloc::{AllocError, Global};
use v6_options::Duid;

/// Reads a file, where one is kept.
fn read_if<W: Outside>(
    alloc: Global,
    outside: &mut W,
    is_kept: bool,
    name: &str,
    text: &mut Vec<u8>,
) -> Result<Option<Got>, NoMemory>
    requires { IsFileName name.now }
    ensures does { IfOk result
        (λ got. Does (reading_if is_kept name.now) (option_map got_reading got) (W.seen outside.old)
        (W.seen outside.new) text.old.items text.new.items) }
    ensures begun { IfErr result
        (λ _. HasBegun (reading_if is_kept name.now) (W.seen outside.old) (W.seen outside.new)) }
    ensures waiting { (W.seen outside.new).waiting ≡ (W.seen outside.old).waiting }
{
    if !is_kept {
        return Ok(None);
    }
    let got = read(alloc, outside, name, text)?;
    Ok(Some(got))
}

/// What is known of a file that was read.
fn known_by(got: Got) -> Known
    ensures { known_of result ≡ known_by (got_reading got) }
{
    match got {
        Got::Text(bytes) => Known::Holds(Some(bytes)),
        Got::Missing => Known::Holds(None),
        Got::Unread => Known::Unread,
    }
}

/// The file that was read, where one is kept.
fn file_with(keeps: Keeps, name: String, got: Option<Got>) -> Option<KeptFile>
    requires { IsFileName (string_bytes name) }
    ensures { option_to_list result ≡ file_with (keeps_of keeps) (string_bytes name) (option_map got_reading got) }
{
    match got {
        Some(got) => Some(KeptFile::new(keeps, name, known_by(got))),
        None => None,
    }
}

fn push_file(files: &mut Vec<KeptFile>, file: Option<KeptFile>) -> Result<(), AllocError>
    ensures { OnOk result (files.new.items ≡ files.old.items ++ option_to_list file) }
{
    if let Some(file) = file {
        files.push(file)?;
    }
    Ok(())
}

/// How an interface begins, by what reading the files of its leases gave. `duid` is that of the host.
fn begin_with(
    alloc: Global,
    managed: &Managed,
    duid: &Duid,
    lease4: &Option<Got>,
    lease6: &Option<Got>,
) -> Result<Beginning, NoMemory>
    requires { FitsManaged managed.now }
    ensures is { IfOk result
        (λ begun. beginning_of begun
        ≡ loading.beginning_of duid.now.bytes.items
        (loading.loaded managed.now (option_map got_reading lease4.now)
        (option_map got_reading lease6.now))) }
    ensures fit { IfOk result (λ begun. FitsBeginning (beginning_of begun)) }
{
    Ok(Beginning {
        managed: managed.to_owned(alloc)?,
        duid: duid_copied(alloc, duid)?,
        kept4: first_lease(alloc, &managed.spec, lease4)?,
        kept6: first_lease6(alloc, &managed.spec, lease6)?,
    })
}

/// What the opening found for an interface: how it begins, and the files of its leases.
#[derive(Drop)]
pub struct Loaded {
    pub beginning: Beginning,
    /// That of its DHCPv4 lease, where DHCPv4 runs.
    pub file4: Option<KeptFile>,
    /// That of its DHCPv6 lease, where DHCPv6 runs.
    pub file6: Option<KeptFile>,
}

/// Reads the files of an interface's leases, each where its protocol runs.
fn load_one<W: Outside>(
    alloc: Global,
    outside: &mut W,
    managed: &Managed,
    duid: &Duid,
    text: &mut Vec<u8>,
) -> Result<Loaded, NoMemory>
    requires { FitsManaged managed.now }
    ensures loads { IfOk result
        (λ one. LoadsOne managed.now duid.now.bytes.items one (W.seen outside.old)
        (W.seen outside.new) text.old.items text.new.items) }
    ensures begun { IfErr result
        (λ _. HasBegun (loading.loading_one managed.now) (W.seen outside.old) (W.seen outside.new)) }
    ensures fit { IfOk result (λ one. FitsBeginning (beginning_of one.beginning)) }
    ensures waiting { (W.seen outside.new).waiting ≡ (W.seen outside.old).waiting }
{
    let name4 = lease4_file(alloc, managed)?;
    let name6 = lease6_file(alloc, managed)?;
    let runs4 = runs_dhcp4(&managed.conf);
    let lease4 = read_if(alloc, outside, runs4, &name4, text)?;
    let runs6 = runs_dhcp6(&managed.conf);
    let lease6 = read_if(alloc, outside, runs6, &name6, text)?;
    let beginning = begin_with(alloc, managed, duid, &lease4, &lease6)?;
    let index = managed.spec.index;
    Ok(Loaded {
        beginning,
        file4: file_with(Keeps::Lease4(index), name4, lease4),
        file6: file_with(Keeps::Lease6(index), name6, lease6),
    })
}

/// What the opening found: how each interface begins, and the files that the life keeps.
#[derive(Drop)]
pub struct Found {
    pub beginnings: Vec<Beginning>,
    pub files: Vec<KeptFile>,
}

/// Reads the files of the interfaces' leases, one interface after another. One that can't be read doesn't stop the
/// others. `files` are those that were read before.
fn load_leases<W: Outside>(
    alloc: Global,
    outside: &mut W,
    managed: &[Managed],
    duid: &Duid,
    files: Vec<KeptFile>,
    text: &mut Vec<u8>,
) -> Result<Found, NoMemory>
    requires { AreManaged managed.now }
    ensures loads { IfOk result
        (λ found. LoadsLeases managed.now duid.now.bytes.items files.items
        (map beginning_of found.beginnings.items) found.files.items
        (W.seen outside.old) (W.seen outside.new) text.old.items text.new.items) }
    ensures begun { IfErr result
        (λ _. HasBegun (loading.loading managed.now) (W.seen outside.old) (W.seen outside.new)) }
    ensures fit { IfOk result (λ found. AreBeginnings (map beginning_of found.beginnings.items)) }
    ensures waiting { (W.seen outside.new).waiting ≡ (W.seen outside.old).waiting }
{
    let mut beginnings = Vec::new(alloc);
    let mut files = files;
    for m in managed {
        let one = load_one(alloc, outside, m, duid, text)?;
        beginnings.push(one.beginning)?;
        push_file(&mut files, one.file4)?;
        push_file(&mut files, one.file6)?;
    }
    Ok(Found { beginnings, files })
}

/// The file of the DUID, where it was read. What isn't the text of a DUID is to be replaced by this one.
fn duid_files(alloc: Global, duid: &Duid, read: Option<Got>) -> Result<Vec<KeptFile>, NoMemory>
    ensures { IfOk result
        (λ files. files.items
        ≡ file_with (model.Duid duid.now.bytes.items) loading.duid_file (option_map got_reading read)) }
{
    let name = String::from_str(alloc, DUID_FILE)?;
    let keeps = Keeps::Duid(duid_copied(alloc, duid)?);
    let mut files = Vec::new(alloc);
    push_file(&mut files, file_with(keeps, name, read))?;
    Ok(files)
}

/// Reads the DUID, where some client needs one, and then the files of leases. `first` is the first interface.
fn load_with<W: Outside>(
    alloc: Global,
    outside: &mut W,
    managed: &[Managed],
    first: &Managed,
    text: &mut Vec<u8>,
) -> Result<Found, NoMemory>
    requires managed { AreManaged managed.now }
    requires first { slice_get managed.now 0 ≡ Some first.now }
    ensures loads { IfOk result
        (λ found. LoadsOwn managed.now (map beginning_of found.beginnings.items) found.files.items
        (W.seen outside.old) (W.seen outside.new) text.old.items text.new.items) }
    ensures begun { IfErr result (λ _. HasBegun (loading_own managed.now) (W.seen outside.old) (W.seen outside.new)) }
    ensures fit { IfOk result (λ found. AreBeginnings (map beginning_of found.beginnings.items)) }
    ensures waiting { (W.seen outside.new).waiting ≡ (W.seen outside.old).waiting }
{
    let is_kept = some_need_duid(managed);
    let read = read_if(alloc, outside, is_kept, DUID_FILE, text)?;
    let duid = host_duid(alloc, first, &read)?;
    let files = duid_files(alloc, &duid, read)?;
    load_leases(alloc, outside, managed, &duid, files, text)
}

/// The same; where no interface is managed there are none.
fn load_own<W: Outside>(
    alloc: Global,
    outside: &mut W,
    managed: &[Managed],
    text: &mut Vec<u8>,
) -> Result<Found, NoMemory>
    requires { AreManaged managed.now }
    ensures loads { IfOk result
        (λ found. LoadsOwn managed.now (map beginning_of found.beginnings.items) found.files.items
        (W.seen outside.old) (W.seen outside.new) text.old.items text.new.items) }
    ensures begun { IfErr result (λ _. HasBegun (loading_own managed.now) (W.seen outside.old) (W.seen outside.new)) }
    ensures fit { IfOk result (λ found. AreBeginnings (map beginning_of found.beginnings.items)) }
    ensures waiting { (W.seen outside.new).waiting ≡ (W.seen outside.old).waiting }
{
    match managed.first() {
        Some(first) => load_with(alloc, outside, managed, first, text),
        None => Ok(Found {
            beginnings: Vec::new(alloc),
            files: Vec::new(alloc),
        }),
    }
}

/// The file of the resolver.
fn resolver_kept(alloc: Global, got: Got) -> Result<Option<KeptFile>, NoMemory>
    ensures { IfOk result
        (λ file. option_to_list file ≡ file_with model.Resolver loading.resolver_file (Some (got_reading got))) }
{
    let name = String::from_str(alloc, RESOLVER_FILE)?;
    Ok(file_with(Keeps::Resolver, name, Some(got)))
}

/// Reads the files that a life keeps. That of the resolver is the last.
pub fn load_all<W: Outside>(
    alloc: Global,
    outside: &mut W,
    managed: &[Managed],
    text: &mut Vec<u8>,
) -> Result<Found, NoMemory>
    requires { AreManaged managed.now }
    ensures loads { IfOk result
        (λ found. LoadsAll managed.now (map beginning_of found.beginnings.items) found.files.items
        (W.seen outside.old) (W.seen outside.new) text.old.items text.new.items) }
    ensures begun { IfErr result
        (λ _. HasBegun (loading.loading_files managed.now) (W.seen outside.old) (W.seen outside.new)) }
    ensures fit { IfOk result (λ found. AreBeginnings (map beginning_of found.beginnings.items)) }
    ensures waiting { (W.seen outside.new).waiting ≡ (W.seen outside.old).waiting }
{
    let mut found = load_own(alloc, outside, managed, text)?;
    let got = read(alloc, outside, RESOLVER_FILE, text)?;
    let file = resolver_kept(alloc, got)?;
    push_file(&mut found.files, file)?;
    Ok(found)
}
