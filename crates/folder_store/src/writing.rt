//! Files that are written, made to outlive a crash, and removed.

ghost use Rattle.std.specs.Prelude.{◌≡◌, ◌≤◌, ◌+◌, length, drop};
ghost use Rattle.system_calls.specs.Asking.{failure_of};
ghost use Rattle.folder_store.specs.FolderCalls.{Syncs, Writes, WritesOn, Removes};
ghost use Rattle.folder_store.specs.FolderFiles.{KeepsFiles, ChangesAt, IsWritten, IsRemoved, WritesBehind};

use crate::failures::is_missing;
use std::io::ErrorKind;
use system_calls::Disk;

/// Makes what a file holds, or the names in a folder, outlive a crash.
#[tactic(auto, using(crate::proofs::FileSteps::unopened, crate::proofs::FileSteps::synced))]
pub(crate) fn sync<D: Disk>(disk: &mut D, path: &str) -> Result<(), ErrorKind>
    ensures asked { Syncs path.now (D.calls disk.old) (D.calls disk.new) (failure_of result) }
    ensures held { KeepsFiles (D.held disk.old) (D.held disk.new) }
{
    disk.open(path)?;
    let synced = disk.sync();
    disk.close();
    synced
}

/// What stands behind so many bytes.
fn behind(bytes: &[u8], n: usize) -> &[u8]
    requires { n ≤ length bytes.now }
    ensures rest { result.now ≡ drop n bytes.now }
    ensures shorter { length result.now + n ≡ length bytes.now }
{
    bytes.split_at(n).1
}

/// Writes all of these bytes to the open file.
#[tactic(auto, using(crate::proofs::FolderSteps::pieces_written, crate::proofs::FileSteps::pieces_put))]
fn write_on<D: Disk>(disk: &mut D, bytes: &[u8]) -> Result<(), ErrorKind>
    ensures asked { WritesOn bytes.now (D.calls disk.old) (D.calls disk.new) (failure_of result) }
    ensures held { WritesBehind bytes.now (failure_of result) (D.held disk.old) (D.held disk.new) }
{
    let mut rest = bytes;
    'pieces: while !rest.is_empty() {
        match disk.write(rest) {
            Ok(n) => {
                if n == 0 {
                    return Err(ErrorKind::WriteZero);
                }
                rest = behind(rest, n);
            }
            Err(kind) => return Err(kind),
        }
    }
    Ok(())
}

/// Makes a file of these bytes.
#[tactic(auto, using(crate::proofs::FileSteps::unmade))]
pub(crate) fn write<D: Disk>(disk: &mut D, path: &str, bytes: &[u8]) -> Result<(), ErrorKind>
    ensures asked { Writes path.now bytes.now (D.calls disk.old) (D.calls disk.new) (failure_of result) }
    ensures held { ChangesAt path.now (IsWritten bytes.now (failure_of result)) (D.held disk.old) (D.held disk.new) }
{
    disk.make(path)?;
    let written = write_on(disk, bytes);
    disk.close();
    written
}

/// Removes a file, where there is one.
#[tactic(auto, using(crate::proofs::FileSteps::removed, crate::proofs::FileSteps::missing, crate::proofs::FileSteps::unremoved))]
pub(crate) fn remove<D: Disk>(disk: &mut D, path: &str) -> Result<(), ErrorKind>
    ensures asked { Removes path.now (D.calls disk.old) (D.calls disk.new) (failure_of result) }
    ensures held { ChangesAt path.now (IsRemoved (failure_of result)) (D.held disk.old) (D.held disk.new) }
{
    match disk.remove(path) {
        Ok(()) => Ok(()),
        Err(kind) => { if is_missing(kind) { Ok(()) } else { Err(kind) } }
    }
}
