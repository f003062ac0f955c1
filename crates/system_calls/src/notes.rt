//! What the store over a folder has to note.

/// A call of the store that begins, or one that was answered. The last field tells whether it was done.
#[derive(Clone, Copy)]
pub enum Note<'a> {
    Begins,
    ListedAsides(bool),
    ReadFile(&'a str, bool),
    WroteAside(&'a str, &'a [u8], bool),
    SyncedAside(&'a str, bool),
    RenamedAside(&'a str, bool),
    RemovedFile(&'a str, bool),
    SettledFiles(bool),
}
