//! The removal of asides from the store, in which files are written before they are put in their place; no other file
//! is changed.

ghost use Rattle.std.specs.Prelude.{◌≡◌, ◌≤◌, ◌<◌, [], ◌∷◌, true, false, None, Some, IfErr, IfOk, IfSome, IsSome, map, option_map};
ghost use Rattle.std.specs.List.{AllByRecursion};
ghost use Rattle.std.specs.String.{string_bytes};
ghost use Rattle.world.specs.FileNames.{IsFileName};
ghost use Rattle.world.specs.StoreCalls.{store_number, RemovedFile, SettledFiles};
ghost use Rattle.world.specs.FileLists.{asides};
ghost use Rattle.lease_file.specs.Quiet.{IsQuiet};
ghost use Rattle.lease_file.specs.ToldStore.{told_files, told_calls, with_calls};
ghost use Rattle.lease_file.specs.AsideCalls.{BeginsListing, BeginsRemovals, HasListingCause, HasClearingCause, IsListingForetold};
ghost use Rattle.lease_file.specs.AsideCalls.{TellsRefusal, SettlesIfAny, FailsNothing, ClearsNothing, any_left, removal_calls, cleared_calls, listing_calls};
ghost use Rattle.file_choices.specs.LeftWhole.{LeavesWhole};
ghost use Rattle.file_choices.specs.StoreWalks.{Answered};
ghost use Rattle.lease_file.specs.AsideFiles.{without_one, without, TakesFile, TakesFiles};

use crate::faults::{SaveFault, SaveStep};
use std::alloc::Global;
use world::{DeviceAnswer, NoMemory, Store, done};

/// An aside, and whether it was removed.
#[derive(Drop)]
pub struct Cleared {
    pub name: String,
    pub ok: bool,
}

/// What clearing the asides met.
#[derive(Drop)]
pub struct Clearing {
    /// Each aside, in byte order of the names.
    pub removed: Vec<Cleared>,
    /// Whether the removals were settled, where there was an aside.
    pub settled: Option<bool>,
}

fn list_asides<S: Store>(alloc: Global, store: &mut S) -> Result<Vec<String>, SaveFault>
    ensures later { S.faults store.old ≤ S.faults store.new }
    ensures failing { S.failing store.new ≡ S.failing store.old }
    ensures cause { HasListingCause (S.faults store.old) (S.faults store.new) result }
    ensures foretold { IsListingForetold (S.failing store.old) (store_number (S.told store.old)) result }
    ensures refused { TellsRefusal (S.told store.old) (S.told store.new) result }
    ensures fit { IfOk result (λ names. AllByRecursion (λ name. IsFileName (string_bytes name)) names.items) }
    ensures names { IfOk result
        (λ names. IfSome (S.told store.old) (λ told. map string_bytes names.items ≡ asides told.files)) }
    ensures calls { IfOk result
        (λ names. told_calls (S.told store.new)
        ≡ with_calls (listing_calls (map string_bytes names.items)) (told_calls (S.told store.old))) }
    ensures files { told_files (S.told store.new) ≡ told_files (S.told store.old) }
    ensures answered { IfOk result
        (λ names. Answered (S.failing store.old) (listing_calls (map string_bytes names.items)) (S.told store.old)
        (S.told store.new)) }
    ensures begun { IfErr result
        (λ fault. BeginsListing (S.failing store.old) (S.told store.old) (S.told store.new) fault) }
{
    let mut names = Vec::new(alloc);
    match store.list_asides(&mut names) {
        Ok(()) => Ok(names),
        Err(DeviceAnswer::Failed) => Err(SaveFault::Failed(SaveStep::List)),
        Err(DeviceAnswer::NoMemory) => Err(SaveFault::NoMemory),
    }
}

#[tactic(auto, using(crate::proofs::OneChange::change_answered))]
fn remove_aside<S: Store>(store: &mut S, name: &str) -> Result<bool, NoMemory>
    requires { IsFileName name.now }
    ensures later { S.faults store.old ≤ S.faults store.new }
    ensures failing { S.failing store.new ≡ S.failing store.old }
    ensures cause { IfOk result (λ done. done ≡ false → S.faults store.old < S.faults store.new) }
    ensures calls { IfOk result
        (λ done. told_calls (S.told store.new)
        ≡ with_calls (RemovedFile name.now done ∷ []) (told_calls (S.told store.old))) }
    ensures taken { IfOk result
        (λ done. TakesFile (S.failing store.old) done name.now (told_files (S.told store.old))
        (told_files (S.told store.new))) }
    ensures files { IfOk result
        (λ done. IsSome (S.failing store.old)
        → told_files (S.told store.new)
        ≡ option_map (without_one done name.now) (told_files (S.told store.old))) }
    ensures answered { IfOk result
        (λ done. Answered (S.failing store.old) (RemovedFile name.now done ∷ []) (S.told store.old)
        (S.told store.new)) }
    ensures begun { IfErr result (λ _. S.told store.new ≡ S.told store.old) }
{
    done(store.remove(name))
}

fn remove_asides<S: Store>(
    alloc: Global,
    store: &mut S,
    names: Vec<String>,
) -> Result<Vec<Cleared>, NoMemory>
    requires { AllByRecursion (λ name. IsFileName (string_bytes name)) names.items }
    ensures later { S.faults store.old ≤ S.faults store.new }
    ensures failing { S.failing store.new ≡ S.failing store.old }
    ensures cause { IfOk result (λ removed. any_left removed.items ≡ true → S.faults store.old < S.faults store.new) }
    ensures names { IfOk result (λ removed. map (λ cleared. cleared.name) removed.items ≡ names.items) }
    ensures calls { IfOk result
        (λ removed. told_calls (S.told store.new)
        ≡ with_calls (removal_calls removed.items) (told_calls (S.told store.old))) }
    ensures taken { IfOk result
        (λ removed. TakesFiles (S.failing store.old) removed.items (told_files (S.told store.old))
        (told_files (S.told store.new))) }
    ensures files { IfOk result
        (λ removed. IsSome (S.failing store.old)
        → told_files (S.told store.new) ≡ option_map (without removed.items) (told_files (S.told store.old))) }
    ensures answered { IfOk result
        (λ removed. Answered (S.failing store.old) (removal_calls removed.items) (S.told store.old)
        (S.told store.new)) }
    ensures begun { IfErr result
        (λ _. BeginsRemovals (S.failing store.old) names.items (S.told store.old) (S.told store.new)) }
{
    let mut removed = Vec::new(alloc);
    for name in names {
        let ok = remove_aside(store, &name)?;
        removed.push(Cleared { name, ok })?;
    }
    Ok(removed)
}

#[tactic(auto, using(crate::proofs::OneChange::change_answered))]
fn settle<S: Store>(store: &mut S) -> Result<bool, NoMemory>
    ensures later { S.faults store.old ≤ S.faults store.new }
    ensures failing { S.failing store.new ≡ S.failing store.old }
    ensures cause { IfOk result (λ done. done ≡ false → S.faults store.old < S.faults store.new) }
    ensures calls { IfOk result
        (λ done. told_calls (S.told store.new)
        ≡ with_calls (SettledFiles done ∷ []) (told_calls (S.told store.old))) }
    ensures files { told_files (S.told store.new) ≡ told_files (S.told store.old) }
    ensures answered { IfOk result
        (λ done. Answered (S.failing store.old) (SettledFiles done ∷ []) (S.told store.old) (S.told store.new)) }
    ensures begun { IfErr result (λ _. S.told store.new ≡ S.told store.old) }
{
    done(store.settle())
}

fn clear_steps<S: Store>(alloc: Global, store: &mut S) -> Result<Clearing, SaveFault>
    ensures later { S.faults store.old ≤ S.faults store.new }
    ensures failing { S.failing store.new ≡ S.failing store.old }
    ensures cause { HasClearingCause (S.faults store.old) (S.faults store.new) result }
    ensures foretold { IsListingForetold (S.failing store.old) (store_number (S.told store.old)) result }
    ensures refused { TellsRefusal (S.told store.old) (S.told store.new) result }
    ensures settled { IfOk result (λ clearing. SettlesIfAny clearing.removed.items clearing.settled) }
    ensures quiet { IsQuiet (S.failing store.old) (S.told store.old)
        → IfOk result ClearsNothing × IsQuiet (S.failing store.new) (S.told store.new) × FailsNothing result }
    ensures names { IfOk result
        (λ clearing. IfSome (S.told store.old)
        (λ told. map (λ cleared. string_bytes cleared.name) clearing.removed.items ≡ asides told.files)) }
    ensures calls { IfOk result
        (λ clearing. told_calls (S.told store.new)
        ≡ with_calls (cleared_calls clearing) (told_calls (S.told store.old))) }
    ensures taken { IfOk result
        (λ clearing. TakesFiles (S.failing store.old) clearing.removed.items (told_files (S.told store.old))
        (told_files (S.told store.new))) }
    ensures files { IfOk result
        (λ clearing. IsSome (S.failing store.old)
        → told_files (S.told store.new)
        ≡ option_map (without clearing.removed.items) (told_files (S.told store.old))) }
    ensures answered { IfOk result
        (λ clearing. Answered (S.failing store.old) (cleared_calls clearing) (S.told store.old)
        (S.told store.new)) }
    ensures begun { IfErr result (λ _. LeavesWhole (S.failing store.old) [] (S.told store.old) (S.told store.new)) }
{
    let names = list_asides(alloc, store)?;
    if names.is_empty() {
        return Ok(Clearing {
            removed: Vec::new(alloc),
            settled: None,
        });
    }
    let removed = remove_asides(alloc, store, names)?;
    let settled = settle(store)?;
    Ok(Clearing {
        removed,
        settled: Some(settled),
    })
}

/// Removes all asides, and settles that unless there was none. After a failed removal the rest is still removed.
/// `Failed` comes of the listing alone. At each moment, whatever it answers, a crash leaves of each file that is no
/// aside one of its choices since the entry, and none of them was changed.
pub fn clear_asides<S: Store>(alloc: Global, store: &mut S) -> Result<Clearing, SaveFault>
    ensures later { S.faults store.old ≤ S.faults store.new }
    ensures failing { S.failing store.new ≡ S.failing store.old }
    ensures cause { HasClearingCause (S.faults store.old) (S.faults store.new) result }
    ensures foretold { IsListingForetold (S.failing store.old) (store_number (S.told store.old)) result }
    ensures refused { TellsRefusal (S.told store.old) (S.told store.new) result }
    ensures settled { IfOk result (λ clearing. SettlesIfAny clearing.removed.items clearing.settled) }
    ensures quiet { IsQuiet (S.failing store.old) (S.told store.old)
        → IfOk result ClearsNothing × IsQuiet (S.failing store.new) (S.told store.new) × FailsNothing result }
    ensures names { IfOk result
        (λ clearing. IfSome (S.told store.old)
        (λ told. map (λ cleared. string_bytes cleared.name) clearing.removed.items ≡ asides told.files)) }
    ensures calls { IfOk result
        (λ clearing. told_calls (S.told store.new)
        ≡ with_calls (cleared_calls clearing) (told_calls (S.told store.old))) }
    ensures taken { IfOk result
        (λ clearing. TakesFiles (S.failing store.old) clearing.removed.items (told_files (S.told store.old))
        (told_files (S.told store.new))) }
    ensures files { IfOk result
        (λ clearing. IsSome (S.failing store.old)
        → told_files (S.told store.new)
        ≡ option_map (without clearing.removed.items) (told_files (S.told store.old))) }
    ensures answered { IfOk result
        (λ clearing. Answered (S.failing store.old) (cleared_calls clearing) (S.told store.old)
        (S.told store.new)) }
    ensures whole { LeavesWhole (S.failing store.old) [] (S.told store.old) (S.told store.new) }
{
    clear_steps(alloc, store)
}
