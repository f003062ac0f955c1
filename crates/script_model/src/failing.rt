//! The failures that a script can ask for: one call of one device, counted from the first.

/// A device some of whose calls a script lets fail.
#[derive(Clone, Copy, PartialEq, Eq)]
pub enum FailDevice {
    /// The link: the frames that it is offered.
    Link,
    /// The store: each call.
    Store,
    /// The host: each listing and each change.
    Host,
    /// The hooks: the jobs that are started.
    Hooks,
}

/// Which call fails: the `number`-th of the device, from 1.
#[derive(Clone, Copy, PartialEq, Eq)]
pub struct FailLine {
    pub device: FailDevice,
    pub number: u64,
}
