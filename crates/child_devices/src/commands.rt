//! The addresses and routes of the host, as a script that runs as a child process lists and changes them.

ghost use Rattle.std.specs.Prelude.{◌≡◌, pos, [], ◌∷◌, ◌++◌, map, codes, All, IfOk, OnOk, OnErr, None, Some, IfSome, option_map};
ghost use Rattle.std.specs.BTreeSet.{IsOrdered};
ghost use Rattle.std.specs.String.{string_bytes};
ghost use Rattle.world.specs.Causes.{HasDeviceCause};
ghost use Rattle.world.specs.HostCalls.{Lists, Adds, Removes, Changes};
ghost use Rattle.world.specs.RowOrder.{row_cmp};
ghost use Rattle.world.specs.RowText.{row_text};
ghost use Rattle.world.specs.Rows.{IsRow};
ghost use Rattle.script_model.specs.RowSpellings.{SpellsRow};
ghost use Rattle.std.specs.Process.{exit_code};
ghost use Rattle.child_devices.specs.ChildCalls.{start_of};
ghost use Rattle.system_calls.specs.Asking.{failure_of, Answered};
ghost use Rattle.child_devices.specs.HostNotes.{host_told, answered_by, note_of, call_of, ChangesTold, ListsText, ListsTold};
ghost use Rattle.child_devices.specs.HostTables.{changed, IsChange};
ghost use Rattle.child_devices.specs.HostScripts.{change_word, words_of, RunsScript, EndsAs, Runs, ChangesRow, ListsRowsOf};
ghost use Rattle.child_devices.specs.Listings.{IsListing};

use crate::processes::{Children, HostNote};
use net_types::split_at_byte;
use row_texts::{print_row, read_row};
use std::alloc::{AllocError, Global};
use std::collections::BTreeSet;
use std::io::ErrorKind;
use std::process::{Command, ExitStatus, Output};
use std::str;
use system_calls::{Faults, reason};
use world::{DeviceAnswer, Host, HostRow, NoMemory};

/// The row on a line of a listing.
fn row_on(line: &[u8]) -> Option<HostRow>
    ensures { IfSome result (λ row. SpellsRow line.now row × IsRow row) }
{
    read_row(str::from_utf8(line).ok()?).ok()
}

/// Reads the rows of a listing, a line for each. A line that is no row, has no end or comes twice is a failure.
#[tactic(auto, using(crate::proofs::ListingRows::listing_begins, crate::proofs::ListingRows::listing_ends))]
fn rows_of(alloc: Global, listing: &[u8]) -> Result<BTreeSet<HostRow>, DeviceAnswer>
    ensures rows { IfOk result (λ rows. All IsRow rows.keys) }
    ensures ordered { IfOk result (λ rows. IsOrdered row_cmp rows) }
    ensures whole { IfOk result (λ rows. IsListing listing.now rows.keys) }
{
    let mut rows = BTreeSet::new(alloc);
    let mut rest = listing;
    'lines: while let Some((line, others)) = split_at_byte(rest, b'\n') {
        let Some(row) = row_on(line) else {
            return Err(DeviceAnswer::Failed);
        };
        match rows.insert(row) {
            Ok(true) => rest = others,
            Ok(false) => return Err(DeviceAnswer::Failed),
            Err(_) => return Err(DeviceAnswer::NoMemory),
        }
    }
    if rest.is_empty() {
        Ok(rows)
    } else {
        Err(DeviceAnswer::Failed)
    }
}

/// Appends the rows of a set, or nothing where memory runs out.
fn append_rows(
    alloc: Global,
    held: &BTreeSet<HostRow>,
    rows: &mut Vec<HostRow>,
) -> Result<(), DeviceAnswer>
    ensures ok { OnOk result (rows.new.items ≡ rows.old.items ++ held.now.keys) }
    ensures err { OnErr result (rows.new.items ≡ rows.old.items) }
{
    let Ok(mut copies) = held.iter().copied().collect::<Vec<HostRow>>(alloc) else {
        return Err(DeviceAnswer::NoMemory);
    };
    match rows.append(&mut copies) {
        Ok(()) => Ok(()),
        Err(_) => Err(DeviceAnswer::NoMemory),
    }
}

/// The text of a row.
fn text_of(alloc: Global, row: &HostRow) -> Result<String, AllocError>
    ensures { IfOk result (λ text. string_bytes text ≡ row_text row.now) }
{
    let mut text = String::new(alloc);
    match print_row(row, &mut text) {
        Ok(()) => Ok(text),
        Err(NoMemory) => Err(AllocError),
    }
}

/// What is between the blanks of a text.
fn words_of(alloc: Global, text: &str) -> Result<Vec<&str>, AllocError>
    ensures { IfOk result (λ words. map (λ word. word.now) words.items ≡ words_of text.now) }
{
    text.split(' ').collect(alloc)
}

/// The call of a script with these words.
#[tactic(auto, using(crate::proofs::ScriptCalls::script_begins, crate::proofs::ScriptCalls::script_goes_on))]
fn script_call(
    alloc: Global,
    script: &str,
    first: &str,
    words: &[&str],
) -> Result<Command, AllocError>
    ensures { IfOk result
        (λ call. RunsScript script.now (first.now ∷ map (λ word. word.now) words.now) (start_of call)) }
{
    let mut call = Command::new(alloc, script)?;
    call.arg(first)?;
    for word in words {
        call.arg(*word)?;
    }
    Ok(call)
}

/// What a script is to do with a row.
#[derive(Clone, Copy)]
enum Change {
    Add,
    Remove,
}

impl Change {
    fn word(self) -> &'static str
        ensures { result.now ≡ change_word self }
    {
        match self {
            Change::Add => "host-add",
            Change::Remove => "host-del",
        }
    }

    /// What is noted of it.
    fn note(self, row: HostRow, done: bool) -> HostNote
        ensures { result ≡ note_of self row done }
    {
        match self {
            Change::Add => HostNote::Added(row, done),
            Change::Remove => HostNote::Removed(row, done),
        }
    }
}

/// The call of a script that changes a row.
fn change_call(
    alloc: Global,
    script: &str,
    change: Change,
    row: HostRow,
) -> Result<Command, AllocError>
    ensures { IfOk result (λ call. IsChange script.now change row (start_of call)) }
{
    let text = text_of(alloc, &row)?;
    let words = words_of(alloc, &text)?;
    script_call(alloc, script, change.word(), &words)
}

/// How a script ended: without success where its status isn't 0.
fn ended(answer: Result<ExitStatus, ErrorKind>) -> Result<(), ErrorKind>
    ensures { EndsAs answer (failure_of result) }
{
    if answer?.success() {
        Ok(())
    } else {
        Err(ErrorKind::Other)
    }
}

/// Runs a script to its end.
#[tactic(auto, using(crate::proofs::ScriptCalls::not_started, crate::proofs::ScriptCalls::ran, crate::proofs::TableSteps::run_leaves))]
fn run<C: Children>(children: &mut C, call: &mut Command) -> Result<(), ErrorKind>
    ensures asked { Runs (start_of call.old) (C.calls children.old) (C.calls children.new) (failure_of result) }
    ensures tables { ChangesTold (start_of call.old) (failure_of result) (C.tables children.old)
        (C.tables children.new) }
{
    children.start(call)?;
    ended(children.wait())
}

/// Appends the rows of a listing that a script printed, or nothing where it is none.
#[tactic(auto, using(crate::proofs::HeldRows::lists_held))]
fn append_printed(
    alloc: Global,
    output: &Output,
    rows: &mut Vec<HostRow>,
) -> Result<(), DeviceAnswer>
    ensures listed { ListsText output.now.stdout.items rows.old.items rows.new.items result }
    ensures done { OnOk result (exit_code output.now.status ≡ Some (pos 0)) }
{
    if !output.status.success() {
        return Err(DeviceAnswer::Failed);
    }
    let held = rows_of(alloc, &output.stdout)?;
    append_rows(alloc, &held, rows)
}

/// The host's tables, as a script lists and changes them. What they hold is told where the machine tells it.
///
/// The script's first word says what it is to do: `host-list` prints all rows, a line for each; `host-add` and
/// `host-del` are followed by the words of a row. Status 0 is success. A script that doesn't end is waited for.
#[derive(Drop)]
pub struct CommandHost<C: Children + Drop> {
    alloc: Global,
    children: C,
    script: String,
    faults: Faults,
}

#[tactic(auto, using(system_calls::proofs::Causing::counted_cause, crate::proofs::ScriptCalls::prints, crate::proofs::TableSteps::print_leaves))]
impl<C: Children + Drop> CommandHost<C> {
    /// The tables behind the script with this path. Nothing runs yet.
    pub fn new(alloc: Global, children: C, script: &str) -> Result<CommandHost<C>, NoMemory>
        ensures script { IfOk result (λ host. string_bytes host.script ≡ script.now) }
        ensures children { IfOk result (λ host. host.children ≡ children) }
    {
        match String::from_str(alloc, script) {
            Ok(script) => Ok(CommandHost {
                alloc,
                children,
                script,
                faults: Faults::none(),
            }),
            Err(_) => Err(NoMemory),
        }
    }

    /// Notes a call of these tables.
    fn note(&mut self, call: HostNote)
        ensures told { host_told (C.tables self.new.children (string_bytes self.old.script))
            ≡ option_map (answered_by call) (host_told (C.tables self.old.children (string_bytes self.old.script))) }
        ensures asked { C.calls self.new.children ≡ C.calls self.old.children }
        ensures same { (self.new.script ≡ self.old.script) × (self.new.faults ≡ self.old.faults) }
    {
        self.children.note_host(&self.script, call);
    }

    /// Changes a row by the script, which is run to its end.
    fn change(&mut self, change: Change, row: &HostRow) -> Result<(), DeviceAnswer>
        ensures cause { HasDeviceCause self.old.faults.count self.new.faults.count result }
        ensures script { self.new.script ≡ self.old.script }
        ensures told { Changes None (changed change row.now) (call_of change row.now)
            (host_told (C.tables self.old.children (string_bytes self.old.script)))
            (host_told (C.tables self.new.children (string_bytes self.old.script))) result }
        ensures asked { Answered
            (ChangesRow (string_bytes self.old.script) (change_word change) row.now (C.calls self.old.children)
            (C.calls self.new.children))
            (C.calls self.new.children ≡ C.calls self.old.children) result }
    {
        let Ok(mut call) = change_call(self.alloc, &self.script, change, *row) else {
            return Err(DeviceAnswer::NoMemory);
        };
        self.faults.room()?;
        let ran = run(&mut self.children, &mut call);
        self.note(change.note(*row, ran.is_ok()));
        self.faults.answered(ran)
    }

    /// Appends the rows that the script lists.
    fn append_listed(&mut self, rows: &mut Vec<HostRow>) -> Result<(), DeviceAnswer>
        ensures listed { ListsTold (host_told (C.tables self.old.children (string_bytes self.old.script)))
            rows.old.items rows.new.items result }
        ensures tables { host_told (C.tables self.new.children (string_bytes self.old.script))
            ≡ host_told (C.tables self.old.children (string_bytes self.old.script)) }
        ensures same { (self.new.script ≡ self.old.script) × (self.new.faults ≡ self.old.faults) }
        ensures asked { ListsRowsOf (string_bytes self.old.script) (C.calls self.old.children)
            (C.calls self.new.children) rows.old.items rows.new.items result }
    {
        let Ok(mut call) = script_call(self.alloc, &self.script, "host-list", &[]) else {
            return Err(DeviceAnswer::NoMemory);
        };
        match self.children.print(&mut call) {
            Ok(output) => append_printed(self.alloc, &output, rows),
            Err(kind) => Err(reason(kind)),
        }
    }
}

#[tactic(auto, using(system_calls::proofs::Causing::counted_cause))]
impl<C: Children + Drop> Host for CommandHost<C> {
    ghost use Rattle.std.specs.Prelude.{None};

    ghost faults = { λ host. host.faults.count };

    ghost told = { λ host. host_told (C.tables host.children (string_bytes host.script)) };

    ghost failing = { λ host. None };

    fn list(&mut self, rows: &mut Vec<HostRow>) -> Result<(), DeviceAnswer>
        ensures cause { HasDeviceCause self.old.faults.count self.new.faults.count result }
        ensures told { Lists (host_told (C.tables self.old.children (string_bytes self.old.script)))
            (host_told (C.tables self.new.children (string_bytes self.old.script))) rows.old.items rows.new.items
            result }
        ensures script { self.new.script ≡ self.old.script }
        ensures asked { ListsRowsOf (string_bytes self.old.script) (C.calls self.old.children)
            (C.calls self.new.children) rows.old.items rows.new.items result }
    {
        self.faults.room()?;
        match self.append_listed(rows) {
            Ok(()) => {
                self.note(HostNote::Listed(true));
                Ok(())
            }
            Err(DeviceAnswer::Failed) => {
                self.note(HostNote::Listed(false));
                Err(self.faults.counted(DeviceAnswer::Failed))
            }
            Err(DeviceAnswer::NoMemory) => Err(DeviceAnswer::NoMemory),
        }
    }

    fn add(&mut self, row: &HostRow) -> Result<(), DeviceAnswer>
        ensures cause { HasDeviceCause self.old.faults.count self.new.faults.count result }
        ensures told { Adds None row.now (host_told (C.tables self.old.children (string_bytes self.old.script)))
            (host_told (C.tables self.new.children (string_bytes self.old.script))) result }
        ensures script { self.new.script ≡ self.old.script }
        ensures asked { Answered
            (ChangesRow (string_bytes self.old.script) (codes "host-add") row.now (C.calls self.old.children)
            (C.calls self.new.children))
            (C.calls self.new.children ≡ C.calls self.old.children) result }
    {
        self.change(Change::Add, row)
    }

    fn remove(&mut self, row: &HostRow) -> Result<(), DeviceAnswer>
        ensures cause { HasDeviceCause self.old.faults.count self.new.faults.count result }
        ensures told { Removes None row.now (host_told (C.tables self.old.children (string_bytes self.old.script)))
            (host_told (C.tables self.new.children (string_bytes self.old.script))) result }
        ensures script { self.new.script ≡ self.old.script }
        ensures asked { Answered
            (ChangesRow (string_bytes self.old.script) (codes "host-del") row.now (C.calls self.old.children)
            (C.calls self.new.children))
            (C.calls self.new.children ≡ C.calls self.old.children) result }
    {
        self.change(Change::Remove, row)
    }
}
