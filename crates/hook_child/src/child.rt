//! The running process of a hook: the job that it does, and since when.

/// The child that runs.
#[derive(Clone, Copy, PartialEq, Eq)]
pub struct Child {
    /// The number of its job.
    pub number: u64,
    /// The moment at which it was started.
    pub since: u64,
}
