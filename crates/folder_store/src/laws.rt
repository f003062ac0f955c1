//! Laws on calls of the system.

ghost use Rattle.folder_store.specs.Crashes.{SavesWhole};

/// Law: a file that is saved as a store's calls save it is whole on the disk after each call of the system.
pub fn savings_are_whole()
    ensures { SavesWhole }
{}
