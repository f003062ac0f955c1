//! The reading of files from the store, one after another, where a file that is missing or can't be read doesn't stop
//! the rest.

ghost use Rattle.std.specs.Prelude.{true, length, map, ◌<◌, ◌≡◌, ◌≤◌, IfOk};
ghost use Rattle.std.specs.List.{AllByRecursion};
ghost use Rattle.world.specs.FileNames.{IsFileName};
ghost use Rattle.world.specs.StoreCalls.{store_number, Missing};
ghost use Rattle.lease_file.specs.Quiet.{IsQuiet};
ghost use Rattle.lease_file.specs.ToldStore.{told_files, told_calls, with_calls};
ghost use Rattle.lease_file.specs.FileReads.{any_unread, got_reading, reading_calls, HasReadCause, IsReadForetold, TellsReading};

use std::alloc::Global;
use world::{DeviceAnswer, NoMemory, Store};

/// What reading a file gave.
#[derive(Drop)]
pub enum Got {
    Text(Vec<u8>),
    /// There is no such file.
    Missing,
    /// The store failed.
    Unread,
}

/// Reads a file.
pub fn read_file<S: Store>(alloc: Global, store: &mut S, name: &str) -> Result<Got, NoMemory>
    requires { IsFileName name.now }
    ensures later { S.faults store.old ≤ S.faults store.new }
    ensures failing { S.failing store.new ≡ S.failing store.old }
    ensures cause { HasReadCause (S.faults store.old) (S.faults store.new) result }
    ensures foretold { IsReadForetold (S.failing store.old) (store_number (S.told store.old)) result }
    ensures told { TellsReading name.now (S.told store.old) (S.told store.new) result }
    ensures quiet { IsQuiet (S.failing store.old) (S.told store.old)
        → IfOk result (λ got. got ≡ Got.Missing) × IsQuiet (S.failing store.new) (S.told store.new) }
{
    let mut bytes = Vec::new(alloc);
    match store.read_file(name, &mut bytes) {
        Ok(true) => Ok(Got::Text(bytes)),
        Ok(false) => Ok(Got::Missing),
        Err(DeviceAnswer::Failed) => Ok(Got::Unread),
        Err(DeviceAnswer::NoMemory) => Err(NoMemory),
    }
}

/// Reads files, one after another. One that can't be read doesn't stop the others.
pub fn read_files<S: Store>(
    alloc: Global,
    store: &mut S,
    names: &[&str],
) -> Result<Vec<Got>, NoMemory>
    requires { AllByRecursion (λ name. IsFileName name.now) names.now }
    ensures later { S.faults store.old ≤ S.faults store.new }
    ensures failing { S.failing store.new ≡ S.failing store.old }
    ensures cause { IfOk result (λ gots. any_unread gots.items ≡ true → S.faults store.old < S.faults store.new) }
    ensures count { IfOk result (λ gots. length gots.items ≡ length names.now) }
    ensures quiet { IsQuiet (S.failing store.old) (S.told store.old)
        → IfOk result (λ gots. map got_reading gots.items ≡ map (λ _. Missing) names.now)
        × IsQuiet (S.failing store.new) (S.told store.new) }
    ensures calls { IfOk result
        (λ gots. told_calls (S.told store.new)
        ≡ with_calls (reading_calls (map (λ name. name.now) names.now) gots.items)
        (told_calls (S.told store.old))) }
    ensures files { told_files (S.told store.new) ≡ told_files (S.told store.old) }
{
    let mut gots = Vec::new(alloc);
    for name in names {
        let got = read_file(alloc, store, name)?;
        gots.push(got)?;
    }
    Ok(gots)
}
