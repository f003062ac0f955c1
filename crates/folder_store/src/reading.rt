//! Files that are read.

ghost use Rattle.std.specs.Prelude.{◌≤◌, [], ◌∷◌, length, IfOk, OnOk};
ghost use Rattle.system_calls.specs.Asking.{Does};
ghost use Rattle.system_calls.specs.DiskCalls.{Read, read_into};
ghost use Rattle.system_calls.specs.DiskFiles.{Tells};
ghost use Rattle.folder_store.specs.FolderCalls.{ReadsOn, ReadsOpened, IsUnopened, ReadsPath};
ghost use Rattle.folder_store.specs.FolderFiles.{KeepsFiles, ChangesAt, AppendsRest, ReadsRest, IsRead};

use crate::failures::is_missing;
use std::io::ErrorKind;
use system_calls::{Disk, reason};
use world::DeviceAnswer;

/// How many bytes of a file are read at a time, at most.
const PIECE: usize = 4096;

/// Reads the next piece of the open file.
fn read_piece<D: Disk>(disk: &mut D, piece: &mut [u8; PIECE]) -> Result<usize, ErrorKind>
    ensures room { IfOk result (λ n. n ≤ length piece.new) }
    ensures told { Does (Read (read_into piece.new result) ∷ []) (D.calls disk.old) (D.calls disk.new) }
    ensures held { Tells (Read (read_into piece.new result)) (D.held disk.old) (D.held disk.new) }
{
    disk.read(piece)
}

/// Appends what the open file holds; a front of it where that fails.
#[tactic(auto, using(crate::proofs::FolderSteps::pieces_read, crate::proofs::ReadSteps::read_keeps))]
fn read_on<D: Disk>(disk: &mut D, into: &mut Vec<u8>) -> Result<(), DeviceAnswer>
    ensures asked { ReadsOn (D.calls disk.old) (D.calls disk.new) into.old.items into.new.items result }
    ensures held { KeepsFiles (D.held disk.old) (D.held disk.new) }
    ensures rest { OnOk result (AppendsRest (D.held disk.old) into.old.items into.new.items) }
{
    let mut piece = [0; PIECE];
    let mut count = 0;
    'pieces: while count < u64::MAX {
        count += 1;
        match read_piece(disk, &mut piece) {
            Ok(n) => {
                if n == 0 {
                    return Ok(());
                }
                let Ok(()) = into.extend_from_slice(&piece[..n]) else {
                    return Err(DeviceAnswer::NoMemory);
                };
            }
            Err(kind) => return Err(reason(kind)),
        }
    }
    Err(DeviceAnswer::Failed)
}

/// Appends what the open file holds, or nothing where that fails, and closes it.
#[tactic(auto, using(crate::proofs::FileSteps::closed))]
fn read_opened<D: Disk>(disk: &mut D, into: &mut Vec<u8>) -> Result<bool, DeviceAnswer>
    ensures asked { ReadsOpened (D.calls disk.old) (D.calls disk.new) into.old.items into.new.items result }
    ensures held { KeepsFiles (D.held disk.old) (D.held disk.new) }
    ensures rest { ReadsRest (D.held disk.old) into.old.items into.new.items result }
{
    let before = into.len();
    let read = read_on(disk, into);
    disk.close();
    match read {
        Ok(()) => Ok(true),
        Err(answer) => {
            into.truncate(before);
            Err(answer)
        }
    }
}

/// What the reading of a file that can't be opened gives.
fn unopened(kind: ErrorKind) -> Result<bool, DeviceAnswer>
    ensures { IsUnopened kind result }
{
    if is_missing(kind) {
        Ok(false)
    } else {
        Err(reason(kind))
    }
}

/// Appends the bytes of a file, or none where it can't be read; false where there is no such file.
#[tactic(auto, using(crate::proofs::ReadSteps::file_read, crate::proofs::ReadSteps::file_unread))]
pub(crate) fn append_file<D: Disk>(
    disk: &mut D,
    path: &str,
    into: &mut Vec<u8>,
) -> Result<bool, DeviceAnswer>
    ensures asked { ReadsPath path.now (D.calls disk.old) (D.calls disk.new) into.old.items into.new.items result }
    ensures held { ChangesAt path.now (IsRead into.old.items into.new.items result) (D.held disk.old)
        (D.held disk.new) }
{
    match disk.open(path) {
        Ok(()) => read_opened(disk, into),
        Err(kind) => unopened(kind),
    }
}
