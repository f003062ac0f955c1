//! How files are kept. This function does nothing: its contract is the law.

ghost use Rattle.daemon.specs.SameCalls.{SavesAlike, RemovesAlike, ClearsAlike};

/// Law: what the loop asks to save a file, to remove one and to clear asides are the calls that `lease_file` makes at
/// once, with the same answers.
pub fn files_are_kept_by_the_same_calls()
    ensures saving { SavesAlike }
    ensures removing { RemovesAlike }
    ensures clearing { ClearsAlike }
{}
