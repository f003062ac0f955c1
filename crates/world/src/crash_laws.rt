//! Laws of a store's record of calls: it stays sound, what the store reads and what undoing all that isn't settled
//! gives are images that a crash may leave, and settling leaves a synced file just as it reads.

ghost use Rattle.std.specs.Prelude.{List};
ghost use Rattle.world.specs.NamedLists.{InNameOrder};
ghost use Rattle.world.specs.FileLists.{StoreFile, file_name};
ghost use Rattle.world.specs.CrashImages.{IsImage};
ghost use Rattle.world.specs.StoreCalls.{StoreTold, store_holding};
ghost use Rattle.world.specs.SoundStores.{IsSound, StaysSound, SettlesForGood, reads_of, undone_of};

/// Laws of what a store tells. It is sound before the first call and after each; then what the store reads now is one
/// of the images that a crash may leave, and so is what undoing all that isn't settled gives. Once settled a file that
/// was synced is as it reads, and nothing else.
pub fn what_a_crash_leaves()
    ensures begins { (files : List StoreFile) → InNameOrder file_name files → IsSound (store_holding files) }
    ensures goes_on { StaysSound }
    ensures reads { (told : StoreTold) → IsSound told → IsImage told.disk (reads_of told) (reads_of told) }
    ensures undoes { (told : StoreTold) → IsSound told → IsImage told.disk (reads_of told) (undone_of told) }
    ensures settles { SettlesForGood }
{}
