//! The record of a store's calls, gone through once more.

ghost use Rattle.std.specs.Prelude.{◌≡◌, [], map, All, IfOk, OnOk};
ghost use Rattle.world.specs.FileNames.{aside_of};
ghost use Rattle.world.specs.FileLists.{drop_file, file_at, put_file, rename_file};
ghost use Rattle.world.specs.StoreCalls.{StoreTold};
ghost use Rattle.world.specs.Undoing.{Empties, put_undo, restoring, undo_renamed, undo_settled, undo_synced};
ghost use Rattle.store_mem.specs.declared.crashes.Pick.TheVariants as Pick;
ghost use Rattle.store_mem.specs.StoreRecord.{IsNamedEntry, KeepsNames, UndoesNamed, entry_file, store_step, told_after};
ghost use Rattle.store_mem.specs.CrashRecord.{files_left};
ghost use Rattle.store_mem.specs.Replays.{Mirrors, files_in, undo_in};

use crate::crashes::Pick;
use crate::files::{Files, bytes_of, put, take_out};
use crate::stores::{MemFile, StoreEntry, aside_name, first_files, rename};
use crate::undoing::{Undone, Undos, leave_one, put_one, restore_one, settle_all, undo_all};
use call_record::{copy_bytes, copy_text};
use std::alloc::Global;
use std::collections::BTreeMap;
use std::mem::replace;
use world::{DeviceAnswer, NoMemory};

/// The files, and what undoing makes of them, after some of the calls.
#[derive(Drop)]
pub(crate) struct Replay {
    pub files: Files,
    pub undos: Undos,
}

impl Replay {
    fn write(&mut self, alloc: Global, name: &str, bytes: &[u8]) -> Result<(), DeviceAnswer>
        ensures files { OnOk result
            (files_in self.new
            ≡ put_file (record { name = aside_of name.now; bytes = bytes.now }) (files_in self.old)) }
        ensures undos { OnOk result (undo_in self.new ≡ put_undo (aside_of name.now) Empties (undo_in self.old)) }
    {
        let aside = aside_name(alloc, name)?;
        let place = copy_text(alloc, &aside)?;
        let content = copy_bytes(alloc, bytes)?;
        put(&mut self.files, aside, content)?;
        put_one(&mut self.undos, place, Undone::Empties)
    }

    fn sync(&mut self, alloc: Global, name: &str) -> Result<(), DeviceAnswer>
        ensures files { OnOk result (self.new.files.entries ≡ self.old.files.entries) }
        ensures undos { OnOk result
            (undo_in self.new
            ≡ undo_synced (aside_of name.now) (file_at (aside_of name.now) (files_in self.old))
            (undo_in self.old)) }
    {
        let aside = aside_name(alloc, name)?;
        match bytes_of(&self.files, &aside) {
            Some(_) => {
                leave_one(&mut self.undos, &aside);
                Ok(())
            }
            None => Ok(()),
        }
    }

    fn rename(&mut self, alloc: Global, name: &str) -> Result<(), DeviceAnswer>
        ensures files { OnOk result
            (files_in self.new
            ≡ rename_file name.now (file_at (aside_of name.now) (files_in self.old)) (files_in self.old)) }
        ensures undos { OnOk result
            (undo_in self.new
            ≡ undo_renamed name.now (file_at name.now (files_in self.old))
            (file_at (aside_of name.now) (files_in self.old)) (undo_in self.old)) }
    {
        let aside = aside_name(alloc, name)?;
        let Some(bytes) = bytes_of(&self.files, &aside) else {
            return Ok(());
        };
        restore_one(alloc, &mut self.undos, name, bytes_of(&self.files, name))?;
        restore_one(alloc, &mut self.undos, &aside, Some(bytes))?;
        rename(alloc, &mut self.files, name)?;
        Ok(())
    }

    fn remove(&mut self, alloc: Global, name: &str) -> Result<(), DeviceAnswer>
        ensures files { OnOk result (files_in self.new ≡ drop_file name.now (files_in self.old)) }
        ensures undos { OnOk result
            (undo_in self.new ≡ restoring name.now (file_at name.now (files_in self.old)) (undo_in self.old)) }
    {
        restore_one(alloc, &mut self.undos, name, bytes_of(&self.files, name))?;
        take_out(&mut self.files, name);
        Ok(())
    }

    fn settle(&mut self)
        ensures files { self.new.files.entries ≡ self.old.files.entries }
        ensures undos { undo_in self.new ≡ undo_settled (undo_in self.old) }
    {
        settle_all(&mut self.undos);
    }

    fn crash(&mut self, alloc: Global, pick: Pick) -> Result<(), DeviceAnswer>
        ensures files { OnOk result
            ((told : StoreTold) → Mirrors self.old told → files_in self.new ≡ files_left pick told) }
        ensures undos { OnOk result (self.new.undos.entries ≡ []) }
    {
        let undos = replace(&mut self.undos, BTreeMap::new(alloc));
        match pick {
            Pick::Old => undo_all(alloc, undos, &mut self.files),
            Pick::New => Ok(()),
        }
    }

    /// The files after one entry more.
    fn step(&mut self, alloc: Global, entry: &StoreEntry) -> Result<(), DeviceAnswer>
        ensures { OnOk result
            ((told : StoreTold) → Mirrors self.old told → Mirrors self.new (store_step told entry.now)) }
    {
        match entry {
            StoreEntry::Write {
                name,
                bytes,
                done: true,
            } => self.write(alloc, name.as_str(), bytes),
            StoreEntry::Sync { name, done: true } => self.sync(alloc, name.as_str()),
            StoreEntry::Rename { name, done: true } => self.rename(alloc, name.as_str()),
            StoreEntry::Remove { name, done: true } => self.remove(alloc, name.as_str()),
            StoreEntry::Settle { done: true } => {
                self.settle();
                Ok(())
            }
            StoreEntry::Crash { pick } => self.crash(alloc, *pick),
            StoreEntry::List { .. }
            | StoreEntry::Read { .. }
            | StoreEntry::Write { done: false, .. }
            | StoreEntry::Sync { done: false, .. }
            | StoreEntry::Rename { done: false, .. }
            | StoreEntry::Remove { done: false, .. }
            | StoreEntry::Settle { done: false } => Ok(()),
        }
    }
}

/// An entry has the name of a file.
fn entry_is_named(entry: &StoreEntry)
    ensures { IsNamedEntry entry.now }
{
    match entry {
        StoreEntry::Read { name, .. }
        | StoreEntry::Write { name, .. }
        | StoreEntry::Sync { name, .. }
        | StoreEntry::Rename { name, .. }
        | StoreEntry::Remove { name, .. } => {
            let _named = name.as_str();
        }
        StoreEntry::List { .. } | StoreEntry::Settle { .. } | StoreEntry::Crash { .. } => {}
    }
}

/// The files, and what undoing makes of them, after all entries of a record.
pub(crate) fn replayed(
    alloc: Global,
    first: &[MemFile],
    calls: &[StoreEntry],
) -> Result<Replay, NoMemory>
    ensures mirrors { IfOk result (λ replay. Mirrors replay (told_after first.now calls.now)) }
    ensures named { IfOk result (λ replay. UndoesNamed (told_after first.now calls.now)) }
{
    let mut replay = Replay {
        files: first_files(alloc, first)?,
        undos: BTreeMap::new(alloc),
    };
    for entry in calls {
        entry_is_named(entry);
        let Ok(()) = replay.step(alloc, entry) else {
            return Err(NoMemory);
        };
    }
    Ok(replay)
}

/// The files where all that isn't settled is undone.
fn old_files(alloc: Global, first: &[MemFile], calls: &[StoreEntry]) -> Result<Files, NoMemory>
    ensures files { IfOk result
        (λ files. map entry_file files.entries ≡ files_left Pick.Old (told_after first.now calls.now)) }
    ensures named { IfOk result (λ files. UndoesNamed (told_after first.now calls.now)) }
{
    let mut replay = replayed(alloc, first, calls)?;
    match undo_all(alloc, replay.undos, &mut replay.files) {
        Ok(()) => Ok(replay.files),
        Err(_) => Err(NoMemory),
    }
}

/// The files that a crash leaves of those that read so.
pub(crate) fn left_files(
    alloc: Global,
    pick: Pick,
    first: &[MemFile],
    calls: &[StoreEntry],
    files: Files,
) -> Result<Files, NoMemory>
    requires { (told_after first.now calls.now).files ≡ map entry_file files.entries }
    ensures files { IfOk result
        (λ left. map entry_file left.entries ≡ files_left pick (told_after first.now calls.now)) }
    ensures named { IfOk result (λ left. KeepsNames (told_after first.now calls.now) (map entry_file left.entries)) }
{
    match pick {
        Pick::Old => old_files(alloc, first, calls),
        Pick::New => Ok(files),
    }
}
