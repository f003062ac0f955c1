//! What a machine is asked about its files and folders, one call of the system at a time, and what is told of each
//! call.

ghost use Rattle.std.specs.Prelude.{◌≡◌, ◌≤◌, ◌<◌, [], ◌∷◌, ℕ, List, Option, length, option_map, IfOk};
ghost use Rattle.system_calls.specs.Asking.{Does, failure_of};
ghost use Rattle.system_calls.specs.DiskCalls.{DiskCall, Opened, Made, Read, Wrote, Synced, Closed, Renamed, Removed, Listed, Named, read_into, name_given};
ghost use Rattle.system_calls.specs.DiskFiles.{FolderHeld, Tells};
ghost use Rattle.system_calls.specs.FolderNotes.{noted};

use crate::notes::Note;
use std::io::ErrorKind;

/// The files of a machine, by their paths. Each method but `note` is one call of the system, and one that names no file
/// is about the one that was opened last. A call that gave nothing says why, as the system does.
pub trait Disk {
    /// The calls so far with their answers, the last one first, where these are told.
    ghost calls: { Self → Option (List DiskCall) };

    /// What it holds of the files in the folder of each path, and what it keeps of the notes on the store over that
    /// folder, where these are told.
    ghost held: { Self → List ℕ → Option FolderHeld };

    /// Opens a file or a folder for reading.
    fn open(&mut self, path: &str) -> Result<(), ErrorKind>
        ensures told { Does (Opened path.now (failure_of result) ∷ []) (calls self.old) (calls self.new) }
        ensures held { Tells (Opened path.now (failure_of result)) (held self.old) (held self.new) };

    /// Makes a file, or empties the one that is there, and opens it for writing.
    fn make(&mut self, path: &str) -> Result<(), ErrorKind>
        ensures told { Does (Made path.now (failure_of result) ∷ []) (calls self.old) (calls self.new) }
        ensures held { Tells (Made path.now (failure_of result)) (held self.old) (held self.new) };

    /// Reads on in the open file, and says how many bytes that put at the front of `buf`; none at its end. What is held
    /// is told where `buf` has room.
    fn read(&mut self, buf: &mut [u8]) -> Result<usize, ErrorKind>
        ensures room { IfOk result (λ n. n ≤ length buf.new) }
        ensures told { Does (Read (read_into buf.new result) ∷ []) (calls self.old) (calls self.new) }
        ensures held { 0 < length buf.old
            → Tells (Read (read_into buf.new result)) (held self.old) (held self.new) };

    /// Writes behind what was written to the open file, and says how many of the bytes; maybe not all.
    fn write(&mut self, bytes: &[u8]) -> Result<usize, ErrorKind>
        ensures room { IfOk result (λ n. n ≤ length bytes.now) }
        ensures told { Does (Wrote bytes.now result ∷ []) (calls self.old) (calls self.new) }
        ensures held { Tells (Wrote bytes.now result) (held self.old) (held self.new) };

    /// Makes what the open file holds, or the names in the open folder, outlive a crash.
    fn sync(&mut self) -> Result<(), ErrorKind>
        ensures told { Does (Synced (failure_of result) ∷ []) (calls self.old) (calls self.new) }
        ensures held { Tells (Synced (failure_of result)) (held self.old) (held self.new) };

    /// Closes the open file.
    fn close(&mut self)
        ensures told { Does (Closed ∷ []) (calls self.old) (calls self.new) }
        ensures held { Tells Closed (held self.old) (held self.new) };

    /// Gives a file another name, in place of the file that has that one.
    fn rename(&mut self, from: &str, to: &str) -> Result<(), ErrorKind>
        ensures told { Does (Renamed from.now to.now (failure_of result) ∷ []) (calls self.old) (calls self.new) }
        ensures held { Tells (Renamed from.now to.now (failure_of result)) (held self.old) (held self.new) };

    /// Removes a file.
    fn remove(&mut self, path: &str) -> Result<(), ErrorKind>
        ensures told { Does (Removed path.now (failure_of result) ∷ []) (calls self.old) (calls self.new) }
        ensures held { Tells (Removed path.now (failure_of result)) (held self.old) (held self.new) };

    /// Begins to list the names in a folder.
    fn list(&mut self, path: &str) -> Result<(), ErrorKind>
        ensures told { Does (Listed path.now (failure_of result) ∷ []) (calls self.old) (calls self.new) }
        ensures held { Tells (Listed path.now (failure_of result)) (held self.old) (held self.new) };

    /// The next name in the folder, in no order; `None` after the last. One that is no text gives `InvalidFilename`.
    fn next_name(&mut self) -> Result<Option<String>, ErrorKind>
        ensures told { Does (Named (name_given result) ∷ []) (calls self.old) (calls self.new) }
        ensures held { Tells (Named (name_given result)) (held self.old) (held self.new) };

    /// Notes a call of the store over the folder `dir`. Nothing is asked of the system, and of other folders nothing is
    /// said: a store notes in its own.
    fn note(&mut self, dir: &str, call: Note<'_>)
        ensures told { calls self.new ≡ calls self.old }
        ensures held { held self.new dir.now ≡ option_map (noted call.entry) (held self.old dir.now) };
}
