//! A stand-in for the store of files: files held in memory, failures and crashes as told, and a record of the calls.

ghost use Rattle.std.specs.Prelude.{◌≡◌, ◌+◌, ◌<◌, length, vec_len, [], ◌∷◌, ◌++◌, List, String, map, filter, All, IfOk, IfErr, OnOk, OnErr};
ghost use Rattle.std.specs.Global.{Global as Heap};
ghost use Rattle.std.specs.String.{string_bytes};
ghost use Rattle.std.specs.BTreeMap.{keys};
ghost use Rattle.std.specs.Vec.{vec_capacity};
ghost use Rattle.store_mem.specs.Fuse.{first_stopped};
ghost use Rattle.world.specs.FileNames.{IsFileName, aside_of};
ghost use Rattle.world.specs.FileLists.{is_aside, file_at, put_file};
ghost use Rattle.world.specs.StoreCalls.{Appended};
ghost use Rattle.world.specs.CrashImages.{IsImage};
ghost use Rattle.world.specs.SoundStores.{reads_of};
ghost use Rattle.store_mem.specs.CrashRecord.{after_crash};
ghost use Rattle.store_mem.specs.StoreRecord.{Renames, store_start, entry_file, file_of, in_name_order};

use crate::crashes::Pick;
use crate::fails::Fails;
use crate::files::{FileName, Files, bytes_of, put, take_out};
use crate::replaying::left_files;
use call_record::{Numbers, accept, copy_bytes, copy_text, enter, make_room, next_number, refuse};
use std::alloc::Global;
use std::collections::BTreeMap;
use std::marker::Model;
use world::{DeviceAnswer, NoMemory, Store};

/// What the name of an aside ends in.
const ASIDE: &str = ".new";

/// A file that a store holds at first.
#[derive(Drop)]
pub struct MemFile {
    pub name: String,
    pub bytes: Vec<u8>,
}

/// A call that a store answered. What a listing or a reading gave follows from the files at first and the calls before
/// it.
#[derive(Drop)]
pub(crate) enum StoreEntry {
    List {
        done: bool,
    },
    Read {
        name: FileName,
        done: bool,
    },
    Write {
        name: FileName,
        bytes: Vec<u8>,
        done: bool,
    },
    Sync {
        name: FileName,
        done: bool,
    },
    Rename {
        name: FileName,
        done: bool,
    },
    Remove {
        name: FileName,
        done: bool,
    },
    Settle {
        done: bool,
    },
    /// No call: a life ended, and the next one found what a crash left.
    Crash {
        pick: Pick,
    },
}

/// The files in memory.
#[derive(Drop)]
pub struct MemStore {
    alloc: Global,
    first: Vec<MemFile>,
    files: Files,
    calls: Vec<StoreEntry>,
    /// How many calls were answered.
    answered: u64,
    fails: Fails,
}

impl Model for MemStore {
    ghost use Rattle.store_mem.specs.StoreRecord.{StoreState, HoldsFiles, told_after};

    ghost Value = { StoreState };

    ghost view = { λ store. record { told = told_after store.first.items store.calls.items; failing = store.fails } };

    ghost invariant = { λ store. HoldsFiles
        (told_after store.first.items store.calls.items) store.files.entries store.answered };
}

impl MemStore {
    /// A store that holds the files at first, and fails at the calls with these numbers, from 1.
    pub fn new(alloc: Global, files: Vec<MemFile>, fails: Vec<u64>) -> Result<MemStore, NoMemory>
        requires { All (λ file. IsFileName (string_bytes file.name)) files.items }
        ensures { IfOk result
            (λ store. store
            ≡ record { told = store_start files.items; failing = record { numbers = fails.items; from = None } }) }
    {
        let held = first_files(alloc, &files)?;
        Ok(MemStore {
            alloc,
            first: files,
            files: held,
            calls: Vec::new(alloc),
            answered: 0,
            fails: Fails::new(Numbers::new(fails)),
        })
    }
}

impl MemStore {
    /// A fuse passes so many more calls, and fails each call after them; `None` takes it out.
    pub fn set_fuse(&mut self, calls: Option<u64>)
        ensures { self.new
            ≡ record
            self.old {
              failing = record
                  self.old.failing { from = first_stopped (length self.old.told.calls) calls };
            } }
    {
        self.fails.set_fuse(self.answered, calls);
    }
}

impl MemStore {
    /// The store of the next life, which finds what a crash left. Calls go on to be counted.
    pub fn after_crash(self, pick: Pick) -> Result<MemStore, NoMemory>
        ensures left { IfOk result (λ store. store ≡ record self { told = after_crash pick self.told }) }
        ensures image { IfOk result (λ store. IsImage self.told.disk (reads_of self.told) (reads_of store.told)) }
    {
        let MemStore {
            alloc,
            first,
            files,
            mut calls,
            answered,
            fails,
        } = self;
        let files = left_files(alloc, pick, &first, &calls, files)?;
        let Ok(()) = make_room(&mut calls, 1) else {
            return Err(NoMemory);
        };
        enter(&mut calls, StoreEntry::Crash { pick });
        Ok(MemStore {
            alloc,
            first,
            files,
            calls,
            answered,
            fails,
        })
    }
}

/// The files at first, by their names.
pub(crate) fn first_files(alloc: Global, files: &[MemFile]) -> Result<Files, NoMemory>
    ensures held { IfOk result (λ held. map entry_file held.entries ≡ in_name_order (map file_of files.now)) }
    ensures named { IfOk result
        (λ held. All (λ file. IsFileName (string_bytes file.name)) files.now
        → All (λ file. IsFileName file.name) (map entry_file held.entries)) }
{
    let mut held = BTreeMap::new(alloc);
    for file in files {
        let Ok(()) = put_copy(alloc, &mut held, file) else {
            return Err(NoMemory);
        };
    }
    Ok(held)
}

/// The number of the next call, for which room is made in the record.
fn next_call(answered: u64, calls: &mut Vec<StoreEntry>) -> Result<u64, DeviceAnswer>
    ensures items { calls.new.items ≡ calls.old.items }
    ensures room { OnOk result (vec_len calls.new < vec_capacity calls.new) }
    ensures number { IfOk result (λ number. number ≡ answered + 1) }
    ensures err { IfErr result (λ e. e ≡ DeviceAnswer.NoMemory) }
{
    make_room(calls, 1)?;
    next_number(answered)
}

/// Puts a copy of a file at its place.
fn put_copy(alloc: Global, held: &mut Files, file: &MemFile) -> Result<(), DeviceAnswer>
    ensures { OnOk result
        (map entry_file held.new.entries ≡ put_file (file_of file.now) (map entry_file held.old.entries)) }
{
    let name = copy_text(alloc, &file.name)?;
    let bytes = copy_bytes(alloc, &file.bytes)?;
    put(held, name, bytes)
}

/// The name of a file's aside.
pub(crate) fn aside_name(alloc: Global, name: &str) -> Result<String, DeviceAnswer>
    ensures ok { IfOk result (λ aside. string_bytes aside ≡ aside_of name.now) }
    ensures err { IfErr result (λ e. e ≡ DeviceAnswer.NoMemory) }
{
    let mut aside = copy_text(alloc, name)?;
    match aside.push_str(ASIDE) {
        Ok(()) => Ok(aside),
        Err(_) => Err(DeviceAnswer::NoMemory),
    }
}

/// Whether a name is that of an aside.
fn names_aside(name: &str) -> bool
    ensures { result ≡ is_aside name.now }
{
    let bytes = name.as_bytes();
    let end = &bytes[bytes.len().saturating_sub(ASIDE.len())..];
    end.cmp(&ASIDE.as_bytes()).is_eq()
}

/// Appends a copy of a text, or nothing where memory runs out.
fn push_copy(alloc: Global, names: &mut Vec<String>, name: &str) -> Result<(), DeviceAnswer>
    ensures ok { OnOk result
        ((copy : String Heap) × (names.new.items ≡ names.old.items ++ copy ∷ []) × (string_bytes copy ≡ name.now)) }
    ensures unchanged { OnErr result (names.new.items ≡ names.old.items) }
    ensures err { IfErr result (λ e. e ≡ DeviceAnswer.NoMemory) }
{
    let copy = copy_text(alloc, name)?;
    let Ok(()) = names.push(copy) else {
        return Err(DeviceAnswer::NoMemory);
    };
    Ok(())
}

/// Appends the names of all asides, or nothing where memory runs out.
fn append_asides(alloc: Global, files: &Files, names: &mut Vec<String>) -> Result<(), DeviceAnswer>
    ensures ok { OnOk result
        ((more : List (String Heap)) × (names.new.items ≡ names.old.items ++ more)
        × (map string_bytes more ≡ filter is_aside (map string_bytes (keys files.now)))) }
    ensures unchanged { OnErr result (names.new.items ≡ names.old.items) }
    ensures err { IfErr result (λ e. e ≡ DeviceAnswer.NoMemory) }
{
    let before = names.len();
    for name in files.keys() {
        if names_aside(name) {
            let Ok(()) = push_copy(alloc, names, name) else {
                names.truncate(before);
                return Err(DeviceAnswer::NoMemory);
            };
        }
    }
    Ok(())
}

/// Appends the bytes of a file and says whether there is one, or appends nothing where memory runs out.
fn append_file(files: &Files, name: &str, into: &mut Vec<u8>) -> Result<bool, DeviceAnswer>
    ensures ok { IfOk result
        (λ found. Appended
        (file_at name.now (map entry_file files.now.entries)) into.old.items into.new.items found) }
    ensures unchanged { OnErr result (into.new.items ≡ into.old.items) }
    ensures err { IfErr result (λ e. e ≡ DeviceAnswer.NoMemory) }
{
    match bytes_of(files, name) {
        Some(bytes) => match into.extend_from_slice(bytes) {
            Ok(()) => Ok(true),
            Err(_) => Err(DeviceAnswer::NoMemory),
        },
        None => Ok(false),
    }
}

/// Puts the aside of a file in its place and says whether there was one.
pub(crate) fn rename(alloc: Global, files: &mut Files, name: &str) -> Result<bool, DeviceAnswer>
    ensures ok { IfOk result (Renames name.now (map entry_file files.old.entries) (map entry_file files.new.entries)) }
    ensures unchanged { OnErr result (files.new.entries ≡ files.old.entries) }
    ensures err { IfErr result (λ e. e ≡ DeviceAnswer.NoMemory) }
{
    let aside = aside_name(alloc, name)?;
    let content = match bytes_of(files, &aside) {
        Some(bytes) => copy_bytes(alloc, bytes)?,
        None => return Ok(false),
    };
    let place = copy_text(alloc, name)?;
    put(files, place, content)?;
    take_out(files, &aside);
    Ok(true)
}

impl Store for MemStore {
    ghost use Rattle.std.specs.Prelude.{Some, count_by};
    ghost use Rattle.store_mem.specs.StoreRecord.{store_failed};

    ghost faults = { λ store. count_by store_failed store.told.calls };

    ghost told = { λ store. Some store.told };

    ghost failing = { λ store. Some store.failing };

    fn list_asides(&mut self, names: &mut Vec<String>) -> Result<(), DeviceAnswer> {
        let number = next_call(self.answered, &mut self.calls)?;
        if self.fails.has(number) {
            self.answered = number;
            return refuse(&mut self.calls, StoreEntry::List { done: false });
        }
        append_asides(self.alloc, &self.files, names)?;
        self.answered = number;
        enter(&mut self.calls, StoreEntry::List { done: true });
        Ok(())
    }

    fn read_file(&mut self, name: &str, into: &mut Vec<u8>) -> Result<bool, DeviceAnswer> {
        let number = next_call(self.answered, &mut self.calls)?;
        let copy = FileName::new(self.alloc, name)?;
        if self.fails.has(number) {
            self.answered = number;
            return refuse(
                &mut self.calls,
                StoreEntry::Read {
                    name: copy,
                    done: false,
                },
            );
        }
        let found = append_file(&self.files, name, into)?;
        self.answered = number;
        enter(
            &mut self.calls,
            StoreEntry::Read {
                name: copy,
                done: true,
            },
        );
        Ok(found)
    }

    fn write_aside(&mut self, name: &str, bytes: &[u8]) -> Result<(), DeviceAnswer> {
        let number = next_call(self.answered, &mut self.calls)?;
        let copy = FileName::new(self.alloc, name)?;
        let written = copy_bytes(self.alloc, bytes)?;
        if self.fails.has(number) {
            self.answered = number;
            return refuse(
                &mut self.calls,
                StoreEntry::Write {
                    name: copy,
                    bytes: written,
                    done: false,
                },
            );
        }
        let aside = aside_name(self.alloc, name)?;
        let content = copy_bytes(self.alloc, bytes)?;
        put(&mut self.files, aside, content)?;
        self.answered = number;
        accept(
            &mut self.calls,
            StoreEntry::Write {
                name: copy,
                bytes: written,
                done: true,
            },
        )
    }

    fn sync_aside(&mut self, name: &str) -> Result<(), DeviceAnswer> {
        let number = next_call(self.answered, &mut self.calls)?;
        let copy = FileName::new(self.alloc, name)?;
        self.answered = number;
        if self.fails.has(number) {
            return refuse(
                &mut self.calls,
                StoreEntry::Sync {
                    name: copy,
                    done: false,
                },
            );
        }
        accept(
            &mut self.calls,
            StoreEntry::Sync {
                name: copy,
                done: true,
            },
        )
    }

    fn rename_aside(&mut self, name: &str) -> Result<(), DeviceAnswer> {
        let number = next_call(self.answered, &mut self.calls)?;
        let copy = FileName::new(self.alloc, name)?;
        if self.fails.has(number) {
            self.answered = number;
            return refuse(
                &mut self.calls,
                StoreEntry::Rename {
                    name: copy,
                    done: false,
                },
            );
        }
        let there = rename(self.alloc, &mut self.files, name)?;
        self.answered = number;
        if !there {
            return refuse(
                &mut self.calls,
                StoreEntry::Rename {
                    name: copy,
                    done: false,
                },
            );
        }
        accept(
            &mut self.calls,
            StoreEntry::Rename {
                name: copy,
                done: true,
            },
        )
    }

    fn remove(&mut self, name: &str) -> Result<(), DeviceAnswer> {
        let number = next_call(self.answered, &mut self.calls)?;
        let copy = FileName::new(self.alloc, name)?;
        self.answered = number;
        if self.fails.has(number) {
            return refuse(
                &mut self.calls,
                StoreEntry::Remove {
                    name: copy,
                    done: false,
                },
            );
        }
        take_out(&mut self.files, name);
        accept(
            &mut self.calls,
            StoreEntry::Remove {
                name: copy,
                done: true,
            },
        )
    }

    fn settle(&mut self) -> Result<(), DeviceAnswer> {
        let number = next_call(self.answered, &mut self.calls)?;
        self.answered = number;
        if self.fails.has(number) {
            return refuse(&mut self.calls, StoreEntry::Settle { done: false });
        }
        accept(&mut self.calls, StoreEntry::Settle { done: true })
    }
}
