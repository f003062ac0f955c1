//! Failures planned for a device in memory: which of its calls, counted from the first, give an error, and which one.

use std::io::ErrorKind;

/// How many calls of one device fail at most.
const MOST: usize = 2;

/// A call, by its number from 1, and why it gives nothing.
#[derive(Clone, Copy)]
struct Failure {
    call: u64,
    kind: ErrorKind,
}

/// Calls of which some fail.
#[derive(Clone, Copy)]
pub(crate) struct Failing {
    calls: u64,
    these: [Option<Failure>; MOST],
}

impl Failing {
    pub(crate) fn none() -> Failing {
        Failing {
            calls: 0,
            these: [None; MOST],
        }
    }

    /// One more call fails. Nothing changes where there is no room for it.
    pub(crate) fn add(&mut self, call: u64, kind: ErrorKind) {
        for place in &mut self.these {
            if place.is_none() {
                *place = Some(Failure { call, kind });
                return;
            }
        }
    }

    /// Counts a call, which may fail.
    pub(crate) fn call(&mut self) -> Result<(), ErrorKind> {
        self.calls = self.calls.saturating_add(1);
        for failure in self.these.into_iter().flatten() {
            if failure.call == self.calls {
                return Err(failure.kind);
            }
        }
        Ok(())
    }
}
