//! The asides in a folder.

ghost use Rattle.std.specs.Prelude.{◌≡◌, ◌++◌, [], ◌∷◌, filter, map, All, IfOk, IfErr, OnOk};
ghost use Rattle.std.specs.String.{string_bytes};
ghost use Rattle.world.specs.FileNames.{IsFileName};
ghost use Rattle.world.specs.StoreCalls.{AppendsNames};
ghost use Rattle.folder_store.specs.FolderCalls.{ListsOne, ListsOn, ListsSome, Finds, is_aside_name, Appends};
ghost use Rattle.folder_store.specs.FolderFiles.{KeepsFiles, ListsOneMore, AppendsRestOfNames, FindsAsides, AppendsAsides};

use crate::failures::is_no_text;
use crate::naming::is_aside_name;
use std::alloc::Global;
use system_calls::{Disk, reason};
use world::DeviceAnswer;

/// Keeps the next name of the folder where it is that of an aside, and says whether the listing goes on.
#[tactic(auto, using(crate::proofs::FolderSteps::names_come, crate::proofs::ReadSteps::names_held))]
fn list_one<D: Disk>(disk: &mut D, names: &mut Vec<String>) -> Result<bool, DeviceAnswer>
    requires { All (λ name. IsFileName (string_bytes name)) names.old.items }
    ensures named { All (λ name. IsFileName (string_bytes name)) names.new.items }
    ensures listed { ListsOne (D.calls disk.old) (D.calls disk.new) (map string_bytes names.old.items)
        (map string_bytes names.new.items) result }
    ensures held { KeepsFiles (D.held disk.old) (D.held disk.new) }
    ensures one { ListsOneMore (D.held disk.old) (D.held disk.new) (map string_bytes names.old.items)
        (map string_bytes names.new.items) result }
{
    match disk.next_name() {
        Ok(None) => Ok(false),
        Ok(Some(name)) => {
            keep_aside(names, name)?;
            Ok(true)
        }
        Err(kind) => {
            if is_no_text(kind) {
                Ok(true)
            } else {
                Err(reason(kind))
            }
        }
    }
}

/// Keeps the names of asides among those that the folder goes on to list.
#[tactic(auto, using(crate::proofs::FolderSteps::names_listed, crate::proofs::ReadSteps::lists_held))]
fn list_on<D: Disk>(disk: &mut D, names: &mut Vec<String>) -> Result<(), DeviceAnswer>
    requires { All (λ name. IsFileName (string_bytes name)) names.old.items }
    ensures named { All (λ name. IsFileName (string_bytes name)) names.new.items }
    ensures listed { OnOk result
        (ListsOn (D.calls disk.old) (D.calls disk.new) (map string_bytes names.old.items)
        (map string_bytes names.new.items)) }
    ensures cut { IfErr result (λ answer. ListsSome answer (D.calls disk.old) (D.calls disk.new)) }
    ensures held { KeepsFiles (D.held disk.old) (D.held disk.new) }
    ensures rest { OnOk result
        (AppendsRestOfNames (D.held disk.old) (map string_bytes names.old.items)
        (map string_bytes names.new.items)) }
{
    let mut count = 0;
    'entries: while count < u64::MAX {
        count += 1;
        match list_one(disk, names) {
            Ok(true) => (),
            Ok(false) => return Ok(()),
            Err(answer) => return Err(answer),
        }
    }
    Err(DeviceAnswer::Failed)
}

/// Keeps a name that the folder lists, where it is that of an aside.
fn keep_aside(names: &mut Vec<String>, name: String) -> Result<(), DeviceAnswer>
    requires { All (λ name. IsFileName (string_bytes name)) names.old.items }
    ensures named { All (λ name. IsFileName (string_bytes name)) names.new.items }
    ensures kept { OnOk result
        (map string_bytes names.new.items
        ≡ map string_bytes names.old.items ++ filter is_aside_name (string_bytes name ∷ [])) }
    ensures memory { IfErr result (λ answer. (answer ≡ DeviceAnswer.NoMemory) × (names.new.items ≡ names.old.items)) }
{
    if !is_aside_name(name.as_bytes()) {
        return Ok(());
    }
    match names.push(name) {
        Ok(()) => Ok(()),
        Err(_) => Err(DeviceAnswer::NoMemory),
    }
}

/// The names of the asides in a folder, in no order. What a store can't hold isn't listed.
#[tactic(auto, using(crate::proofs::ReadSteps::listing_keeps, crate::proofs::ReadSteps::kept_by_all, crate::proofs::ReadSteps::asides_found))]
fn found_asides<D: Disk>(
    disk: &mut D,
    alloc: Global,
    dir: &str,
) -> Result<Vec<String>, DeviceAnswer>
    ensures named { IfOk result (λ names. All (λ name. IsFileName (string_bytes name)) names.items) }
    ensures listed { Finds (λ names. map string_bytes names.items) dir.now (D.calls disk.old) (D.calls disk.new)
        result }
    ensures held { KeepsFiles (D.held disk.old) (D.held disk.new) }
    ensures asides { IfOk result (λ names. FindsAsides (D.held disk.old dir.now) (map string_bytes names.items)) }
{
    let mut names = Vec::new(alloc);
    match disk.list(dir) {
        Ok(()) => list_on(disk, &mut names)?,
        Err(kind) => return Err(reason(kind)),
    }
    Ok(names)
}

/// Appends the names of the asides in a folder, in byte order.
pub(crate) fn append_asides<D: Disk>(
    disk: &mut D,
    alloc: Global,
    dir: &str,
    names: &mut Vec<String>,
) -> Result<(), DeviceAnswer>
    ensures names { AppendsNames names.old.items names.new.items result }
    ensures listed { Appends dir.now (D.calls disk.old) (D.calls disk.new) names.old.items names.new.items result }
    ensures held { KeepsFiles (D.held disk.old) (D.held disk.new) }
    ensures asides { OnOk result
        (AppendsAsides (D.held disk.old dir.now) (map string_bytes names.old.items)
        (map string_bytes names.new.items)) }
{
    let mut found = match found_asides(disk, alloc, dir) {
        Ok(found) => found,
        Err(answer) => return Err(answer),
    };
    let Ok(()) = found.sort() else {
        return Err(DeviceAnswer::NoMemory);
    };
    match names.append(&mut found) {
        Ok(()) => Ok(()),
        Err(_) => Err(DeviceAnswer::NoMemory),
    }
}
