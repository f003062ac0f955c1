//! The two ways in which a crash in memory can leave the files: what isn't settled undone, or all as it reads.

/// What a crash leaves of a store.
#[derive(Clone, Copy, PartialEq, Eq)]
pub enum Pick {
    /// All renames and removals that aren't settled are undone, and asides that weren't synced are empty.
    Old,
    /// The files as they read.
    New,
}
