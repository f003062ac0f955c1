//! What the supervisor of hook children answers: that a job was dropped, or what is to be done next about the child.

use world::HookJob;

/// A job that was put where no more may wait. It never starts.
#[derive(Clone, Copy, Debug, PartialEq, Eq)]
pub struct Dropped {
    /// The number that it had.
    pub number: u64,
}

/// What is to be done about the hook's child.
#[derive(Drop)]
pub enum Turned {
    Idle,
    /// This job is to be started. It counts as running from now on.
    Start(HookJob),
    /// The child is to be forgotten, as it ran for too long.
    Abandon,
}
