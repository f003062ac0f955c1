//! How a scripted crash leaves the store: whether changes that were never settled are lost or kept.

/// What the next life finds of the store's files where calls weren't settled.
#[derive(Clone, Copy, Debug, PartialEq, Eq)]
pub enum CrashKind {
    /// What no settling made sure is undone.
    Old,
    /// The files as they read.
    New,
}
