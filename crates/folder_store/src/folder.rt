//! The daemon's store as files in one folder: they are read, removed, and replaced by the renaming of files written
//! aside.

ghost use Rattle.std.specs.Prelude.{◌≡◌, map, option_map, IfOk, IfErr, OnErr};
ghost use Rattle.std.specs.String.{string_bytes};
ghost use Rattle.world.specs.Causes.{HasDeviceCause};
ghost use Rattle.world.specs.FileNames.{aside_of, IsFileName};
ghost use Rattle.world.specs.StoreCalls.{AppendsNames, ListsAsides, ReadsFile, FindsAside, RenameForetold, WritesAside, SyncsAside, RenamesAside, RemovesFile, Settles};
ghost use Rattle.system_calls.specs.Asking.{Answered};
ghost use Rattle.system_calls.specs.FolderNotes.{noted, store_told};
ghost use Rattle.system_calls.specs.Paths.{file_path};
ghost use Rattle.folder_store.specs.FolderCalls.{Syncs, Writes, Removes, Renames, ReadsPath, Appends};

use crate::listing::append_asides;
use crate::naming::ASIDE;
use crate::reading::append_file;
use crate::writing::{remove, sync, write};
use std::alloc::Global;
use system_calls::{Disk, Faults, Note};
use world::{DeviceAnswer, NoMemory, Store};

/// Notes a call of the store over a folder.
fn note<D: Disk>(disk: &mut D, dir: &String, call: Note<'_>)
    ensures asked { D.calls disk.new ≡ D.calls disk.old }
    ensures held { D.held disk.new (string_bytes dir.now)
        ≡ option_map (noted call.entry) (D.held disk.old (string_bytes dir.now)) }
{
    disk.note(dir, call);
}

/// The files in a folder. Names go to the system as they are given, behind that of the folder.
#[derive(Drop)]
pub struct FolderStore<D: Disk + Drop> {
    alloc: Global,
    disk: D,
    dir: String,
    faults: Faults,
}

impl<D: Disk + Drop> FolderStore<D> {
    /// The files in the folder `dir`. Nothing is opened yet.
    pub fn new(alloc: Global, disk: D, dir: &str) -> Result<FolderStore<D>, NoMemory>
        ensures dir { IfOk result (λ store. string_bytes store.dir ≡ dir.now) }
        ensures disk { IfOk result (λ store. store.disk ≡ disk) }
    {
        match String::from_str(alloc, dir) {
            Ok(dir) => Ok(FolderStore {
                alloc,
                disk,
                dir,
                faults: Faults::none(),
            }),
            Err(_) => Err(NoMemory),
        }
    }

    /// The path of a file: that of the folder, a slash, and the name.
    fn path(&self, name: &str) -> Result<String, DeviceAnswer>
        ensures path { IfOk result (λ path. string_bytes path ≡ file_path (string_bytes self.now.dir) name.now) }
        ensures err { IfErr result (λ answer. answer ≡ DeviceAnswer.NoMemory) }
    {
        match format!(in self.alloc; "{}/{name}", self.dir) {
            Ok(path) => Ok(path),
            Err(_) => Err(DeviceAnswer::NoMemory),
        }
    }

    /// The path of a file's aside.
    fn aside(&self, name: &str) -> Result<String, DeviceAnswer>
        ensures path { IfOk result
            (λ path. string_bytes path ≡ file_path (string_bytes self.now.dir) (aside_of name.now)) }
        ensures err { IfErr result (λ answer. answer ≡ DeviceAnswer.NoMemory) }
    {
        match format!(in self.alloc; "{}/{name}{ASIDE}", self.dir) {
            Ok(path) => Ok(path),
            Err(_) => Err(DeviceAnswer::NoMemory),
        }
    }
}

#[tactic(auto, using(system_calls::proofs::Causing::counted_cause, system_calls::proofs::Doing::answered_so, crate::proofs::FolderTold::not_told))]
impl<D: Disk + Drop> Store for FolderStore<D> {
    ghost use Rattle.std.specs.Prelude.{None};

    ghost faults = { λ store. store.faults.count };

    ghost told = { λ store. store_told (D.held store.disk) (string_bytes store.dir) };

    ghost failing = { λ store. None };

    fn list_asides(&mut self, names: &mut Vec<String>) -> Result<(), DeviceAnswer>
        ensures cause { HasDeviceCause self.old.faults.count self.new.faults.count result }
        ensures names { AppendsNames names.old.items names.new.items result }
        ensures folder { self.new.dir ≡ self.old.dir }
        ensures told { ListsAsides (store_told (D.held self.old.disk) (string_bytes self.old.dir))
            (store_told (D.held self.new.disk) (string_bytes self.old.dir))
            (map string_bytes names.old.items) (map string_bytes names.new.items) result }
        ensures asked { Appends (string_bytes self.old.dir) (D.calls self.old.disk) (D.calls self.new.disk)
            names.old.items names.new.items result }
    {
        self.faults.room()?;
        note(&mut self.disk, &self.dir, Note::Begins);
        match append_asides(&mut self.disk, self.alloc, &self.dir, names) {
            Ok(()) => {
                note(&mut self.disk, &self.dir, Note::ListedAsides(true));
                Ok(())
            }
            Err(DeviceAnswer::Failed) => {
                note(&mut self.disk, &self.dir, Note::ListedAsides(false));
                Err(self.faults.counted(DeviceAnswer::Failed))
            }
            Err(DeviceAnswer::NoMemory) => Err(DeviceAnswer::NoMemory),
        }
    }

    fn read_file(&mut self, name: &str, into: &mut Vec<u8>) -> Result<bool, DeviceAnswer>
        ensures cause { HasDeviceCause self.old.faults.count self.new.faults.count result }
        ensures err { OnErr result (into.new.items ≡ into.old.items) }
        ensures folder { self.new.dir ≡ self.old.dir }
        ensures told { IsFileName name.now
            → ReadsFile name.now (store_told (D.held self.old.disk) (string_bytes self.old.dir))
            (store_told (D.held self.new.disk) (string_bytes self.old.dir))
            into.old.items into.new.items result }
        ensures asked { ReadsPath (file_path (string_bytes self.old.dir) name.now) (D.calls self.old.disk)
            (D.calls self.new.disk) into.old.items into.new.items result }
    {
        let path = self.path(name)?;
        self.faults.room()?;
        note(&mut self.disk, &self.dir, Note::Begins);
        match append_file(&mut self.disk, &path, into) {
            Ok(found) => {
                note(&mut self.disk, &self.dir, Note::ReadFile(name, true));
                Ok(found)
            }
            Err(DeviceAnswer::Failed) => {
                note(&mut self.disk, &self.dir, Note::ReadFile(name, false));
                Err(self.faults.counted(DeviceAnswer::Failed))
            }
            Err(DeviceAnswer::NoMemory) => Err(DeviceAnswer::NoMemory),
        }
    }

    fn write_aside(&mut self, name: &str, bytes: &[u8]) -> Result<(), DeviceAnswer>
        ensures cause { HasDeviceCause self.old.faults.count self.new.faults.count result }
        ensures folder { self.new.dir ≡ self.old.dir }
        ensures told { IsFileName name.now
            → WritesAside None name.now bytes.now (store_told (D.held self.old.disk) (string_bytes self.old.dir))
            (store_told (D.held self.new.disk) (string_bytes self.old.dir)) result }
        ensures asked { Answered
            (Writes (file_path (string_bytes self.old.dir) (aside_of name.now)) bytes.now (D.calls self.old.disk)
            (D.calls self.new.disk))
            (D.calls self.new.disk ≡ D.calls self.old.disk) result }
    {
        let aside = self.aside(name)?;
        self.faults.room()?;
        note(&mut self.disk, &self.dir, Note::Begins);
        let written = write(&mut self.disk, &aside, bytes);
        note(
            &mut self.disk,
            &self.dir,
            Note::WroteAside(name, bytes, written.is_ok()),
        );
        self.faults.answered(written)
    }

    fn sync_aside(&mut self, name: &str) -> Result<(), DeviceAnswer>
        ensures cause { HasDeviceCause self.old.faults.count self.new.faults.count result }
        ensures folder { self.new.dir ≡ self.old.dir }
        ensures told { IsFileName name.now
            → SyncsAside None name.now (store_told (D.held self.old.disk) (string_bytes self.old.dir))
            (store_told (D.held self.new.disk) (string_bytes self.old.dir)) result }
        ensures asked { Answered
            (Syncs (file_path (string_bytes self.old.dir) (aside_of name.now)) (D.calls self.old.disk)
            (D.calls self.new.disk))
            (D.calls self.new.disk ≡ D.calls self.old.disk) result }
    {
        let aside = self.aside(name)?;
        self.faults.room()?;
        note(&mut self.disk, &self.dir, Note::Begins);
        let synced = sync(&mut self.disk, &aside);
        note(
            &mut self.disk,
            &self.dir,
            Note::SyncedAside(name, synced.is_ok()),
        );
        self.faults.answered(synced)
    }

    fn rename_aside(&mut self, name: &str) -> Result<(), DeviceAnswer>
        ensures cause { HasDeviceCause self.old.faults.count self.new.faults.count result }
        ensures folder { self.new.dir ≡ self.old.dir }
        ensures aside { IsFileName name.now
            → FindsAside name.now (store_told (D.held self.old.disk) (string_bytes self.old.dir)) result }
        ensures foretold { RenameForetold None name.now (store_told (D.held self.old.disk) (string_bytes self.old.dir))
            result }
        ensures told { IsFileName name.now
            → RenamesAside None name.now (store_told (D.held self.old.disk) (string_bytes self.old.dir))
            (store_told (D.held self.new.disk) (string_bytes self.old.dir)) result }
        ensures asked { Answered
            (Renames (file_path (string_bytes self.old.dir) (aside_of name.now))
            (file_path (string_bytes self.old.dir) name.now) (D.calls self.old.disk) (D.calls self.new.disk))
            (D.calls self.new.disk ≡ D.calls self.old.disk) result }
    {
        let aside = self.aside(name)?;
        let path = self.path(name)?;
        self.faults.room()?;
        note(&mut self.disk, &self.dir, Note::Begins);
        let renamed = self.disk.rename(&aside, &path);
        note(
            &mut self.disk,
            &self.dir,
            Note::RenamedAside(name, renamed.is_ok()),
        );
        self.faults.answered(renamed)
    }

    fn remove(&mut self, name: &str) -> Result<(), DeviceAnswer>
        ensures cause { HasDeviceCause self.old.faults.count self.new.faults.count result }
        ensures folder { self.new.dir ≡ self.old.dir }
        ensures told { IsFileName name.now
            → RemovesFile None name.now (store_told (D.held self.old.disk) (string_bytes self.old.dir))
            (store_told (D.held self.new.disk) (string_bytes self.old.dir)) result }
        ensures asked { Answered
            (Removes (file_path (string_bytes self.old.dir) name.now) (D.calls self.old.disk)
            (D.calls self.new.disk))
            (D.calls self.new.disk ≡ D.calls self.old.disk) result }
    {
        let path = self.path(name)?;
        self.faults.room()?;
        note(&mut self.disk, &self.dir, Note::Begins);
        let removed = remove(&mut self.disk, &path);
        note(
            &mut self.disk,
            &self.dir,
            Note::RemovedFile(name, removed.is_ok()),
        );
        self.faults.answered(removed)
    }

    fn settle(&mut self) -> Result<(), DeviceAnswer>
        ensures cause { HasDeviceCause self.old.faults.count self.new.faults.count result }
        ensures folder { self.new.dir ≡ self.old.dir }
        ensures told { Settles None (store_told (D.held self.old.disk) (string_bytes self.old.dir))
            (store_told (D.held self.new.disk) (string_bytes self.old.dir)) result }
        ensures asked { Answered (Syncs (string_bytes self.old.dir) (D.calls self.old.disk) (D.calls self.new.disk))
            (D.calls self.new.disk ≡ D.calls self.old.disk) result }
    {
        self.faults.room()?;
        note(&mut self.disk, &self.dir, Note::Begins);
        let synced = sync(&mut self.disk, &self.dir);
        note(
            &mut self.disk,
            &self.dir,
            Note::SettledFiles(synced.is_ok()),
        );
        self.faults.answered(synced)
    }
}
