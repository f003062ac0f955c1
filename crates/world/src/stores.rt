//! The device that keeps the daemon's files from one life to the next, and what its calls make of them.

ghost use Rattle.std.specs.Prelude.{◌≡◌, ℕ, Option, map, OnErr};
ghost use Rattle.std.specs.String.{string_bytes};
ghost use Rattle.world.specs.Causes.{HasDeviceCause};
ghost use Rattle.world.specs.FileNames.{IsFileName};
ghost use Rattle.world.specs.StoreFails.{StoreFails, StoreForetold};
ghost use Rattle.world.specs.StoreCalls.{StoreTold, store_number, AppendsNames, ListsAsides, ReadsFile, FindsAside, RenameForetold, WritesAside, SyncsAside, RenamesAside, RemovesFile, Settles};

use crate::faults::DeviceAnswer;

/// The files that outlive the daemon. A file is written as an aside (its name and `.new`) and then put in its place.
pub trait Store {
    /// How many calls failed.
    ghost faults: { Self → ℕ };

    /// The files and the calls so far, where these are told.
    ghost told: { Self → Option StoreTold };

    /// Which calls fail, by their numbers from 1 over all lives, where these are told. Then a failed call changes
    /// nothing.
    ghost failing: { Self → Option StoreFails };

    /// Appends the names of all asides, in byte order.
    fn list_asides(&mut self, names: &mut Vec<String>) -> Result<(), DeviceAnswer>
        ensures cause { HasDeviceCause (faults self.old) (faults self.new) result }
        ensures names { AppendsNames names.old.items names.new.items result }
        ensures told { ListsAsides (told self.old) (told self.new) (map string_bytes names.old.items)
            (map string_bytes names.new.items) result }
        ensures foretold { StoreForetold (failing self.old) (store_number (told self.old)) result }
        ensures failing { failing self.new ≡ failing self.old };

    /// Appends the bytes of a file. `false` says that there is no such file.
    fn read_file(&mut self, name: &str, into: &mut Vec<u8>) -> Result<bool, DeviceAnswer>
        requires { IsFileName name.now }
        ensures cause { HasDeviceCause (faults self.old) (faults self.new) result }
        ensures err { OnErr result (into.new.items ≡ into.old.items) }
        ensures told { ReadsFile name.now (told self.old) (told self.new) into.old.items into.new.items result }
        ensures foretold { StoreForetold (failing self.old) (store_number (told self.old)) result }
        ensures failing { failing self.new ≡ failing self.old };

    /// Writes the aside of a file. Where that fails, any bytes may be left in it.
    fn write_aside(&mut self, name: &str, bytes: &[u8]) -> Result<(), DeviceAnswer>
        requires { IsFileName name.now }
        ensures cause { HasDeviceCause (faults self.old) (faults self.new) result }
        ensures told { WritesAside (failing self.old) name.now bytes.now (told self.old) (told self.new) result }
        ensures foretold { StoreForetold (failing self.old) (store_number (told self.old)) result }
        ensures failing { failing self.new ≡ failing self.old };

    /// Makes what was written to the aside of a file outlive a crash.
    fn sync_aside(&mut self, name: &str) -> Result<(), DeviceAnswer>
        requires { IsFileName name.now }
        ensures cause { HasDeviceCause (faults self.old) (faults self.new) result }
        ensures told { SyncsAside (failing self.old) name.now (told self.old) (told self.new) result }
        ensures foretold { StoreForetold (failing self.old) (store_number (told self.old)) result }
        ensures failing { failing self.new ≡ failing self.old };

    /// Puts the aside of a file in its place. Where there is no aside, that fails.
    fn rename_aside(&mut self, name: &str) -> Result<(), DeviceAnswer>
        requires { IsFileName name.now }
        ensures cause { HasDeviceCause (faults self.old) (faults self.new) result }
        ensures aside { FindsAside name.now (told self.old) result }
        ensures told { RenamesAside (failing self.old) name.now (told self.old) (told self.new) result }
        ensures foretold { RenameForetold (failing self.old) name.now (told self.old) result }
        ensures failing { failing self.new ≡ failing self.old };

    /// Removes a file, where there is one.
    fn remove(&mut self, name: &str) -> Result<(), DeviceAnswer>
        requires { IsFileName name.now }
        ensures cause { HasDeviceCause (faults self.old) (faults self.new) result }
        ensures told { RemovesFile (failing self.old) name.now (told self.old) (told self.new) result }
        ensures foretold { StoreForetold (failing self.old) (store_number (told self.old)) result }
        ensures failing { failing self.new ≡ failing self.old };

    /// Makes renames and removals outlive a crash.
    fn settle(&mut self) -> Result<(), DeviceAnswer>
        ensures cause { HasDeviceCause (faults self.old) (faults self.new) result }
        ensures told { Settles (failing self.old) (told self.old) (told self.new) result }
        ensures foretold { StoreForetold (failing self.old) (store_number (told self.old)) result }
        ensures failing { failing self.new ≡ failing self.old };
}
