//! What a crash may leave of the files that a life keeps. This function does nothing: its contract is the law.

ghost use Rattle.file_evidence.specs.WholeFiles.{LifeStaysWhole, ForetoldLivesWhole};

/// Law of a life over any sound store, wherever it is cut off, whatever its calls are answered and whether or not it is
/// told which of them fail: at each moment a crash leaves of each file that is no aside one of its choices since the
/// life's entry, whole, at most two where no call failed since a settling that left the file as it reads. A file that
/// the life doesn't keep is as it was. Where the devices foretell the life, its calls are those that the store tells,
/// and the store is left sound.
pub fn a_life_leaves_whole_files()
    ensures cut { LifeStaysWhole }
    ensures foretold { ForetoldLivesWhole }
{}
