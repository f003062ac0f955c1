//! The files that a life keeps: what is known of each, and how it is brought to what it is to hold.
ghost use Rattle.std.specs.Prelude.{◌≡◌, ◌||◌, false, length, IfOk, IfErr, OnOk, Some, None, option_map};
ghost use Rattle.std.specs.List.{AllByRecursion};
ghost use Rattle.std.specs.String.{string_bytes};
ghost use Rattle.world.specs.FileNames.{IsFileName};
ghost use Rattle.lease_text.specs.Leases.{lease_content};
ghost use Rattle.lease_text.specs.LeaseLines.{lease4_text};
ghost use Rattle.lease6_text.specs.Leases.{lease6_content};
ghost use Rattle.lease6_text.specs.LeaseLines.{lease6_text};
ghost use Rattle.client_model.specs.ResolverParts.{resolver_wanted};
ghost use Rattle.client_core.specs.Touched.{is_touched};
ghost use Rattle.device_calls.specs.Does.{Does};
ghost use Rattle.device_calls.specs.Fronts.{HasBegun};
ghost use Rattle.turn_model.specs.KeptFiles.{wanted_in, same_content, is_left, is_settled, bringing, known_after, keeping, is_unknown};
ghost use Rattle.life_files.specs.Files.{content_of, known_of, keeps_of};
ghost use Rattle.life_files.specs.Keeping.{has_resolver, is_all, is_among, is_nothing, may_differ, IsKept, AreKept, AreKeptBut, KeepsFile, BeginsFile};

use crate::stores::{remove, rename, settle, sync, write};
use client_core::{Core, kept4, kept6, resolver_wanted};
use duid_text::print_duid;
use lease_text::{Lease4, print4};
use lease6_text::{Lease6, print6};
use life_devices::Outside;
use net_types::IfIndex;
use std::alloc::Global;
use std::marker::Model;
use v6_options::Duid;
use world::NoMemory;

/// What is known of a file.
#[derive(Drop)]
pub enum Known {
    /// Its bytes; `None` stands for no such file.
    Holds(Option<Vec<u8>>),
    /// A call that was to change it failed.
    Unknown,
    /// The opening couldn't read it, and nothing was to be kept in it since.
    Unread,
}

/// What may be to be kept otherwise than before: all at the opening, and then what a step touched.
#[derive(Clone, Copy)]
pub enum Touched<'a> {
    All,
    These(&'a client_core::Touched),
}

/// Whether an interface is one of these.
fn is_touched(these: &[IfIndex], iface: IfIndex) -> bool
    ensures { result ≡ is_touched iface.number these.now }
{
    these.iter().any(|one| one.number == iface.number)
}

impl Touched<'_> {
    /// Whether it is all.
    fn is_all(self) -> bool
        ensures { result ≡ is_all self.entry }
    {
        match self {
            Touched::All => true,
            Touched::These(_) => false,
        }
    }

    /// Whether nothing was touched.
    pub fn is_nothing(self) -> bool
        ensures { result ≡ is_nothing self.entry }
    {
        match self {
            Touched::All => false,
            Touched::These(these) => these.ifaces.is_empty() && !these.resolver.is_other(),
        }
    }

    /// Whether the resolver may be told something else.
    fn has_resolver(self) -> bool
        ensures { result ≡ has_resolver self.entry }
    {
        match self {
            Touched::All => true,
            Touched::These(these) => these.resolver.is_other(),
        }
    }

    /// Whether an interface may keep another lease.
    fn has(self, iface: IfIndex) -> bool
        ensures { result ≡ is_among iface.number self.entry }
    {
        match self {
            Touched::All => true,
            Touched::These(these) => is_touched(&these.ifaces, iface),
        }
    }
}

/// What a file keeps.
#[derive(Drop)]
pub enum Keeps {
    /// The DUID of the host.
    Duid(Duid),
    /// The DHCPv4 lease of an interface.
    Lease4(IfIndex),
    /// The DHCPv6 lease of an interface.
    Lease6(IfIndex),
    /// What the resolver is told.
    Resolver,
}

impl Keeps {
    /// Whether a file that keeps this is to hold something else than before, where these were touched. The DUID stays.
    fn may_differ(&self, touched: Touched<'_>) -> bool
        ensures { result ≡ may_differ (keeps_of self.now) touched.entry }
    {
        match self {
            Keeps::Duid(_) => touched.is_all(),
            Keeps::Lease4(iface) => touched.has(*iface),
            Keeps::Lease6(iface) => touched.has(*iface),
            Keeps::Resolver => touched.has_resolver(),
        }
    }
}

/// A file that a life keeps.
#[derive(Drop)]
pub struct KeptFile {
    keeps: Keeps,
    name: String,
    known: Known,
}

impl Model for KeptFile {
    ghost use Rattle.std.specs.String.{string_bytes};
    ghost use Rattle.world.specs.FileNames.{IsFileName};
    ghost use Rattle.turn_model.specs.KeptFiles as model;
    ghost use Rattle.life_files.specs.Files.{known_of, keeps_of};

    ghost Value = { model.KeptFile };

    ghost view = { λ file.
        record { keeps = keeps_of file.keeps; name = string_bytes file.name; known = known_of file.known } };

    ghost invariant = { λ file. IsFileName (string_bytes file.name) };
}

fn same_content(held: &Option<Vec<u8>>, wanted: &Option<Vec<u8>>) -> bool
    ensures { result ≡ same_content (content_of held.now) (content_of wanted.now) }
{
    match (held, wanted) {
        (None, None) => true,
        (None, Some(_)) => false,
        (Some(_), None) => false,
        (Some(held), Some(wanted)) => held == wanted,
    }
}

/// Whether a file that couldn't be read is left alone: that of a lease until one is kept, that of the DUID for good.
/// That of the resolver isn't.
fn is_left(keeps: &Keeps, wanted: &Option<Vec<u8>>) -> bool
    ensures { result ≡ is_left (keeps_of keeps.now) (content_of wanted.now) }
{
    match keeps {
        Keeps::Duid(_) => true,
        Keeps::Lease4(_) => wanted.is_none(),
        Keeps::Lease6(_) => wanted.is_none(),
        Keeps::Resolver => false,
    }
}

/// Whether nothing is to be done.
fn is_settled(keeps: &Keeps, known: &Known, wanted: &Option<Vec<u8>>) -> bool
    ensures { result ≡ is_settled (keeps_of keeps.now) (known_of known.now) (content_of wanted.now) }
{
    match known {
        Known::Holds(content) => same_content(content, wanted),
        Known::Unknown => false,
        Known::Unread => is_left(keeps, wanted),
    }
}

/// What is known of a file that was to hold this, by whether all was done.
fn known_after(wanted: Option<Vec<u8>>, done: bool) -> Known
    ensures { known_of result ≡ known_after (content_of wanted) done }
{
    if done {
        Known::Holds(wanted)
    } else {
        Known::Unknown
    }
}

/// The text of the DHCPv4 lease that is kept; without one there is to be no file.
fn text4(alloc: Global, lease: Option<&Lease4>) -> Result<Option<Vec<u8>>, NoMemory>
    ensures { IfOk result
        (λ wanted. content_of wanted
        ≡ option_map lease4_text (option_map (λ lease. lease_content lease.now) lease.entry)) }
{
    match lease {
        None => Ok(None),
        Some(lease) => Ok(Some(print4(alloc, lease)?)),
    }
}

/// The text of the DHCPv6 lease that is kept; without one there is to be no file.
fn text6(alloc: Global, lease: Option<&Lease6>) -> Result<Option<Vec<u8>>, NoMemory>
    ensures { IfOk result
        (λ wanted. content_of wanted
        ≡ option_map lease6_text (option_map (λ lease. lease6_content lease.now) lease.entry)) }
{
    match lease {
        None => Ok(None),
        Some(lease) => Ok(Some(print6(alloc, lease)?)),
    }
}

/// The text that the resolver is told; where it is told nothing there is to be no file.
fn resolver_bytes(alloc: Global, core: &Core) -> Result<Option<Vec<u8>>, NoMemory>
    ensures { IfOk result (λ wanted. content_of wanted ≡ resolver_wanted core.now.ifaces) }
{
    match resolver_wanted(alloc, core)? {
        None => Ok(None),
        Some(text) => Ok(Some(text.into_bytes())),
    }
}

/// What a file that keeps this is to hold.
fn wanted_in(alloc: Global, core: &Core, keeps: &Keeps) -> Result<Option<Vec<u8>>, NoMemory>
    ensures { IfOk result (λ wanted. content_of wanted ≡ wanted_in core.now.ifaces (keeps_of keeps.now)) }
{
    match keeps {
        Keeps::Duid(duid) => Ok(Some(print_duid(alloc, duid)?)),
        Keeps::Lease4(iface) => text4(alloc, kept4(core, *iface)),
        Keeps::Lease6(iface) => text6(alloc, kept6(core, *iface)),
        Keeps::Resolver => resolver_bytes(alloc, core),
    }
}

/// Writes a file aside, syncs that, puts it in place and settles that. The first call that isn't done ends it.
fn save<'a, W: Outside>(
    outside: &mut W,
    name: &'a str,
    bytes: &'a [u8],
    text: &mut Vec<u8>,
) -> Result<bool, NoMemory>
    requires { IsFileName name.now }
    ensures does { IfOk result
        (λ done. Does (bringing name.now (Some bytes.now)) done (W.seen outside.old)
        (W.seen outside.new) text.old.items text.new.items) }
    ensures begun { IfErr result
        (λ _. HasBegun (bringing name.now (Some bytes.now)) (W.seen outside.old) (W.seen outside.new)) }
    ensures waiting { (W.seen outside.new).waiting ≡ (W.seen outside.old).waiting }
{
    let written = write(outside, name, bytes, text)?;
    if !written {
        return Ok(false);
    }
    let synced = sync(outside, name, text)?;
    if !synced {
        return Ok(false);
    }
    let renamed = rename(outside, name, text)?;
    if !renamed {
        return Ok(false);
    }
    settle(outside, text)
}

/// Removes a file and settles that. The first call that isn't done ends it.
fn discard<W: Outside>(outside: &mut W, name: &str, text: &mut Vec<u8>) -> Result<bool, NoMemory>
    requires { IsFileName name.now }
    ensures does { IfOk result
        (λ done. Does (bringing name.now None) done (W.seen outside.old)
        (W.seen outside.new) text.old.items text.new.items) }
    ensures begun { IfErr result (λ _. HasBegun (bringing name.now None) (W.seen outside.old) (W.seen outside.new)) }
    ensures waiting { (W.seen outside.new).waiting ≡ (W.seen outside.old).waiting }
{
    let removed = remove(outside, name, text)?;
    if !removed {
        return Ok(false);
    }
    settle(outside, text)
}

/// Brings a file to what it is to hold, and says whether all was done.
fn bring<'a, W: Outside>(
    outside: &mut W,
    name: &'a str,
    wanted: &'a Option<Vec<u8>>,
    text: &mut Vec<u8>,
) -> Result<bool, NoMemory>
    requires { IsFileName name.now }
    ensures does { IfOk result
        (λ done. Does (bringing name.now (content_of wanted.now)) done (W.seen outside.old)
        (W.seen outside.new) text.old.items text.new.items) }
    ensures begun { IfErr result
        (λ _. HasBegun (bringing name.now (content_of wanted.now)) (W.seen outside.old) (W.seen outside.new)) }
    ensures waiting { (W.seen outside.new).waiting ≡ (W.seen outside.old).waiting }
{
    match wanted {
        Some(bytes) => save(outside, name, bytes, text),
        None => discard(outside, name, text),
    }
}

impl KeptFile {
    /// The file of this name, and what is known of its contents.
    pub fn new(keeps: Keeps, name: String, known: Known) -> KeptFile
        requires { IsFileName (string_bytes name) }
        ensures { result ≡ record { keeps = keeps_of keeps; name = string_bytes name; known = known_of known } }
    {
        KeptFile { keeps, name, known }
    }

    /// Whether a call that was to change it failed.
    pub fn is_unknown(&self) -> bool
        ensures { result ≡ is_unknown self.now.known }
    {
        match self.known {
            Known::Holds(_) => false,
            Known::Unknown => true,
            Known::Unread => false,
        }
    }

    /// Whether it may hold something else than it is to hold.
    fn is_due(&self, touched: Touched<'_>) -> bool
        ensures { result ≡ (is_unknown self.now.known || may_differ self.now.keeps touched.entry) }
    {
        self.is_unknown() || self.keeps.may_differ(touched)
    }

    /// Brings it to what it is to hold, where it doesn't hold that.
    fn keep<W: Outside>(
        &mut self,
        alloc: Global,
        core: &Core,
        outside: &mut W,
        text: &mut Vec<u8>,
    ) -> Result<(), NoMemory>
        ensures does { OnOk result
            (KeepsFile core.now.ifaces self.old self.new (W.seen outside.old)
            (W.seen outside.new) text.old.items text.new.items) }
        ensures begun { IfErr result
            (λ _. BeginsFile core.now.ifaces self.old (W.seen outside.old) (W.seen outside.new)) }
        ensures waiting { (W.seen outside.new).waiting ≡ (W.seen outside.old).waiting }
    {
        let wanted = wanted_in(alloc, core, &self.keeps)?;
        if is_settled(&self.keeps, &self.known, &wanted) {
            return Ok(());
        }
        let done = bring(outside, &self.name, &wanted, text)?;
        self.known = known_after(wanted, done);
        Ok(())
    }
}

/// Brings a file to what it is to hold. One that is known, and keeps nothing that may have changed, holds it.
fn keep_one<W: Outside>(
    alloc: Global,
    core: &Core,
    touched: Touched<'_>,
    file: &mut KeptFile,
    outside: &mut W,
    text: &mut Vec<u8>,
) -> Result<(), NoMemory>
    requires { may_differ file.old.keeps touched ≡ false → IsKept core.now.ifaces file.old }
    ensures does { OnOk result
        (KeepsFile core.now.ifaces file.old file.new (W.seen outside.old)
        (W.seen outside.new) text.old.items text.new.items) }
    ensures begun { IfErr result (λ _. BeginsFile core.now.ifaces file.old (W.seen outside.old) (W.seen outside.new)) }
    ensures waiting { (W.seen outside.new).waiting ≡ (W.seen outside.old).waiting }
{
    if !file.is_due(touched) {
        return Ok(());
    }
    file.keep(alloc, core, outside, text)
}

/// Brings each file to what it is to hold, one after another. A failure stops none.
fn keep_each<W: Outside>(
    alloc: Global,
    core: &Core,
    touched: Touched<'_>,
    files: &mut [KeptFile],
    outside: &mut W,
    text: &mut Vec<u8>,
) -> Result<(), NoMemory>
    requires { AreKeptBut touched core.now.ifaces files.old }
    ensures does { OnOk result
        (Does (keeping core.now.ifaces files.old) files.new (W.seen outside.old)
        (W.seen outside.new) text.old.items text.new.items) }
    ensures begun { IfErr result
        (λ _. HasBegun (keeping core.now.ifaces files.old) (W.seen outside.old) (W.seen outside.new)) }
    ensures waiting { (W.seen outside.new).waiting ≡ (W.seen outside.old).waiting }
    ensures kept { OnOk result (AreKept core.now.ifaces files.new) }
    ensures count { OnOk result (length files.new ≡ length files.old) }
{
    for file in files.iter_mut() {
        keep_one(alloc, core, touched, file, outside, text)?;
    }
    Ok(())
}

/// Brings the files to what they are to hold. Those that are known, and keep nothing that may have changed, hold it.
pub fn keep_all<W: Outside>(
    alloc: Global,
    core: &Core,
    touched: Touched<'_>,
    files: Vec<KeptFile>,
    outside: &mut W,
    text: &mut Vec<u8>,
) -> Result<Vec<KeptFile>, NoMemory>
    requires { AreKeptBut touched core.now.ifaces files.items }
    ensures does { IfOk result
        (λ kept. Does (keeping core.now.ifaces files.items) kept.items (W.seen outside.old)
        (W.seen outside.new) text.old.items text.new.items) }
    ensures begun { IfErr result
        (λ _. HasBegun (keeping core.now.ifaces files.items) (W.seen outside.old) (W.seen outside.new)) }
    ensures waiting { (W.seen outside.new).waiting ≡ (W.seen outside.old).waiting }
    ensures kept { IfOk result (λ kept. AreKept core.now.ifaces kept.items) }
{
    let mut files = files;
    keep_each(alloc, core, touched, &mut files, outside, text)?;
    Ok(files)
}
