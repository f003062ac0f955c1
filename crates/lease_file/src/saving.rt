//! Saving and removing a file, so that a crash at any moment leaves it whole.

ghost use Rattle.std.specs.Prelude.{◌≡◌, ◌≤◌, [], ◌∷◌};
ghost use Rattle.world.specs.FileNames.{IsFileName};
ghost use Rattle.world.specs.StoreCalls.{WroteAside, SyncedAside, RenamedAside, RemovedFile, SettledFiles};
ghost use Rattle.file_choices.specs.LeftWhole.{LeavesWhole};
ghost use Rattle.lease_file.specs.StoreAnswers.{done_in_step, Steps, HasStepCause};
ghost use Rattle.lease_file.specs.Saving.{Saves, Removes};

use crate::faults::{SaveFault, SaveStep};
use world::{DeviceAnswer, Store};

/// What was answered in this step: a failure names the step.
fn done_in(step: SaveStep, answer: Result<(), DeviceAnswer>) -> Result<(), SaveFault>
    ensures { result ≡ done_in_step step answer }
{
    match answer {
        Ok(()) => Ok(()),
        Err(DeviceAnswer::Failed) => Err(SaveFault::Failed(step)),
        Err(DeviceAnswer::NoMemory) => Err(SaveFault::NoMemory),
    }
}

fn write<S: Store>(store: &mut S, name: &str, bytes: &[u8]) -> Result<(), SaveFault>
    requires { IsFileName name.now }
    ensures later { S.faults store.old ≤ S.faults store.new }
    ensures failing { S.failing store.new ≡ S.failing store.old }
    ensures cause { HasStepCause (S.faults store.old) (S.faults store.new) result }
    ensures step { Steps (S.failing store.old) SaveStep.Write (WroteAside name.now bytes.now) (S.told store.old)
        (S.told store.new) result }
{
    done_in(SaveStep::Write, store.write_aside(name, bytes))
}

fn sync<S: Store>(store: &mut S, name: &str) -> Result<(), SaveFault>
    requires { IsFileName name.now }
    ensures later { S.faults store.old ≤ S.faults store.new }
    ensures failing { S.failing store.new ≡ S.failing store.old }
    ensures cause { HasStepCause (S.faults store.old) (S.faults store.new) result }
    ensures step { Steps (S.failing store.old) SaveStep.Sync (SyncedAside name.now) (S.told store.old)
        (S.told store.new) result }
{
    done_in(SaveStep::Sync, store.sync_aside(name))
}

fn rename<S: Store>(store: &mut S, name: &str) -> Result<(), SaveFault>
    requires { IsFileName name.now }
    ensures later { S.faults store.old ≤ S.faults store.new }
    ensures failing { S.failing store.new ≡ S.failing store.old }
    ensures cause { HasStepCause (S.faults store.old) (S.faults store.new) result }
    ensures step { Steps (S.failing store.old) SaveStep.Rename (RenamedAside name.now) (S.told store.old)
        (S.told store.new) result }
{
    done_in(SaveStep::Rename, store.rename_aside(name))
}

fn take_away<S: Store>(store: &mut S, name: &str) -> Result<(), SaveFault>
    requires { IsFileName name.now }
    ensures later { S.faults store.old ≤ S.faults store.new }
    ensures failing { S.failing store.new ≡ S.failing store.old }
    ensures cause { HasStepCause (S.faults store.old) (S.faults store.new) result }
    ensures step { Steps (S.failing store.old) SaveStep.Remove (RemovedFile name.now) (S.told store.old)
        (S.told store.new) result }
{
    done_in(SaveStep::Remove, store.remove(name))
}

fn settle<S: Store>(store: &mut S) -> Result<(), SaveFault>
    ensures later { S.faults store.old ≤ S.faults store.new }
    ensures failing { S.failing store.new ≡ S.failing store.old }
    ensures cause { HasStepCause (S.faults store.old) (S.faults store.new) result }
    ensures step { Steps (S.failing store.old) SaveStep.Settle SettledFiles (S.told store.old)
        (S.told store.new) result }
{
    done_in(SaveStep::Settle, store.settle())
}

fn save_steps<S: Store>(store: &mut S, name: &str, bytes: &[u8]) -> Result<(), SaveFault>
    requires { IsFileName name.now }
    ensures later { S.faults store.old ≤ S.faults store.new }
    ensures failing { S.failing store.new ≡ S.failing store.old }
    ensures cause { HasStepCause (S.faults store.old) (S.faults store.new) result }
    ensures calls { Saves (S.failing store.old) name.now bytes.now (S.told store.old) (S.told store.new) result }
{
    write(store, name, bytes)?;
    sync(store, name)?;
    rename(store, name)?;
    settle(store)?;
    Ok(())
}

/// Saves a file: its bytes are written aside and synced, put in its place, and settled. The first call that isn't done
/// ends it. At each moment, whatever it answers, a crash leaves of each file one of its choices since the entry.
pub fn save<S: Store>(store: &mut S, name: &str, bytes: &[u8]) -> Result<(), SaveFault>
    requires { IsFileName name.now }
    ensures later { S.faults store.old ≤ S.faults store.new }
    ensures failing { S.failing store.new ≡ S.failing store.old }
    ensures cause { HasStepCause (S.faults store.old) (S.faults store.new) result }
    ensures calls { Saves (S.failing store.old) name.now bytes.now (S.told store.old) (S.told store.new) result }
    ensures whole { LeavesWhole (S.failing store.old) (name.now ∷ []) (S.told store.old) (S.told store.new) }
{
    save_steps(store, name, bytes)
}

fn remove_steps<S: Store>(store: &mut S, name: &str) -> Result<(), SaveFault>
    requires { IsFileName name.now }
    ensures later { S.faults store.old ≤ S.faults store.new }
    ensures failing { S.failing store.new ≡ S.failing store.old }
    ensures cause { HasStepCause (S.faults store.old) (S.faults store.new) result }
    ensures calls { Removes (S.failing store.old) name.now (S.told store.old) (S.told store.new) result }
{
    take_away(store, name)?;
    settle(store)?;
    Ok(())
}

/// Removes a file, where there is one, and settles that. The first call that isn't done ends it. At each moment,
/// whatever it answers, a crash leaves of each file one of its choices since the entry.
pub fn remove<S: Store>(store: &mut S, name: &str) -> Result<(), SaveFault>
    requires { IsFileName name.now }
    ensures later { S.faults store.old ≤ S.faults store.new }
    ensures failing { S.failing store.new ≡ S.failing store.old }
    ensures cause { HasStepCause (S.faults store.old) (S.faults store.new) result }
    ensures calls { Removes (S.failing store.old) name.now (S.told store.old) (S.told store.new) result }
    ensures whole { LeavesWhole (S.failing store.old) (name.now ∷ []) (S.told store.old) (S.told store.new) }
{
    remove_steps(store, name)
}
