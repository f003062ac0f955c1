//! What undoing all that isn't settled makes of the files.

ghost use Rattle.std.specs.Prelude.{◌≡◌, map, Some, None, option_map, All, IfOk, OnOk};
ghost use Rattle.std.specs.String.{string_bytes};
ghost use Rattle.world.specs.FileNames.{IsFileName};
ghost use Rattle.world.specs.NamedLists.{drop_named};
ghost use Rattle.world.specs.Undoing.{content_of, is_emptied, put_undo, restoring, set_file, undo_settled, undone, undone_at, undone_name};
ghost use Rattle.store_mem.specs.StoreRecord.{entry_file};
ghost use Rattle.store_mem.specs.CrashRecord.{undo_of, undos_of};

use crate::files::{Files, put, take_out};
use call_record::{copy_bytes, copy_text};
use std::alloc::Global;
use std::collections::BTreeMap;
use world::DeviceAnswer;

/// What undoing makes of a file.
#[derive(Drop)]
pub(crate) enum Undone {
    /// An aside that was not synced.
    Empties,
    /// A renaming or a removal: what the file was before.
    Restores(Option<Vec<u8>>),
}

/// What undoing makes of files, by their names.
pub(crate) type Undos = BTreeMap<String, Undone>;

/// What undoing makes of a file is this.
pub(crate) fn put_one(undos: &mut Undos, name: String, undone: Undone) -> Result<(), DeviceAnswer>
    ensures { OnOk result
        (undos_of undos.new.entries ≡ put_undo (string_bytes name) (undo_of undone) (undos_of undos.old.entries)) }
{
    match undos.insert(name, undone) {
        Ok(_) => Ok(()),
        Err(_) => Err(DeviceAnswer::NoMemory),
    }
}

/// Undoing leaves a file.
pub(crate) fn leave_one(undos: &mut Undos, name: &str)
    ensures { undos_of undos.new.entries ≡ drop_named undone_name name.now (undos_of undos.old.entries) }
{
    let _ = undos.remove(name);
}

fn copy_content(alloc: Global, content: Option<&[u8]>) -> Result<Option<Vec<u8>>, DeviceAnswer>
    ensures { IfOk result
        (λ copy. option_map (λ bytes. bytes.items) copy ≡ option_map (λ bytes. bytes.now) content.entry) }
{
    match content {
        Some(bytes) => Ok(Some(copy_bytes(alloc, bytes)?)),
        None => Ok(None),
    }
}

/// The content that undoing gives a file that reads so.
fn content_at(
    alloc: Global,
    undos: &Undos,
    name: &str,
    reads: Option<&[u8]>,
) -> Result<Option<Vec<u8>>, DeviceAnswer>
    ensures { IfOk result
        (λ content. option_map (λ bytes. bytes.items) content
        ≡ undone_at name.now (option_map (λ bytes. bytes.now) reads.entry) (undos_of undos.now.entries)) }
{
    match undos.get(name) {
        Some(Undone::Empties) => Ok(Some(Vec::new(alloc))),
        Some(Undone::Restores(Some(bytes))) => Ok(Some(copy_bytes(alloc, bytes)?)),
        Some(Undone::Restores(None)) => Ok(None),
        None => copy_content(alloc, reads),
    }
}

/// A file that reads so is changed: undoing gives it what it would have given before.
pub(crate) fn restore_one(
    alloc: Global,
    undos: &mut Undos,
    name: &str,
    reads: Option<&[u8]>,
) -> Result<(), DeviceAnswer>
    ensures { OnOk result
        (undos_of undos.new.entries
        ≡ restoring name.now (option_map (λ bytes. bytes.now) reads.entry) (undos_of undos.old.entries)) }
{
    let content = content_at(alloc, undos, name, reads)?;
    let place = copy_text(alloc, name)?;
    put_one(undos, place, Undone::Restores(content))
}

fn is_emptied(undone: &Undone) -> bool
    ensures { result ≡ is_emptied (undo_of undone.now) }
{
    match undone {
        Undone::Empties => true,
        Undone::Restores(_) => false,
    }
}

/// After a settling undoing empties the same asides, and leaves all else.
pub(crate) fn settle_all(undos: &mut Undos)
    ensures { undos_of undos.new.entries ≡ undo_settled (undos_of undos.old.entries) }
{
    undos.retain(|_, undone| is_emptied(undone));
}

fn set_one(
    alloc: Global,
    files: &mut Files,
    name: String,
    undone: Undone,
) -> Result<(), DeviceAnswer>
    ensures { OnOk result
        (map entry_file files.new.entries
        ≡ set_file (string_bytes name) (content_of (undo_of undone)) (map entry_file files.old.entries)) }
{
    match undone {
        Undone::Empties => put(files, name, Vec::new(alloc)),
        Undone::Restores(Some(bytes)) => put(files, name, bytes),
        Undone::Restores(None) => {
            take_out(files, &name);
            Ok(())
        }
    }
}

/// Undoes all.
pub(crate) fn undo_all(alloc: Global, undos: Undos, files: &mut Files) -> Result<(), DeviceAnswer>
    ensures { OnOk result
        (map entry_file files.new.entries ≡ undone (undos_of undos.entries) (map entry_file files.old.entries)) }
{
    let mut left = undos;
    'all: while let Some((name, undone)) = left.pop_last() {
        set_one(alloc, files, name, undone)?;
    }
    Ok(())
}
