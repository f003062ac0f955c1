//! What a crash may leave of the files. These functions do nothing: their contracts are the laws.

ghost use Rattle.lease_file.specs.FileLaws.{SavingIsWhole, RemovingIsWhole, OthersStay};
ghost use Rattle.lease_file.specs.WholeFiles.{ClearsAsides};
ghost use Rattle.lease_file.specs.declared.clearing.Clearing.{Clearing};

/// Law: after each call of a saving or a removal, whatever it answers, a crash leaves the file as it might have left it
/// before, or as it is to be, whole; every other file that isn't its aside stays. Once all calls are done it leaves the
/// file as it is to be, and nothing else.
pub fn a_crash_leaves_whole_files()
    ensures saving { SavingIsWhole }
    ensures removing { RemovingIsWhole }
{}

/// Law: clearing asides and reading files change no file that isn't an aside.
pub fn clearing_keeps_files()
    ensures others { OthersStay }
    ensures calls { (clearing : Clearing) → ClearsAsides clearing }
{}
