//! Why files could not be kept: which call of the store failed, or that memory ran out.

ghost use Rattle.std.specs.Prelude.{◌≡◌};
ghost use Rattle.lease_file.specs.declared.faults.SaveFault.TheVariants as fault;

use net_types::NoMemory;
use thiserror::Error;

/// A call of the store.
#[derive(Clone, Copy, Debug, PartialEq, Eq)]
pub enum SaveStep {
    List,
    Write,
    Sync,
    Rename,
    Remove,
    Settle,
}

/// Why the files could not be kept: a call of the store failed, or memory ran out.
#[derive(Clone, Copy, Debug, PartialEq, Eq, Error)]
pub enum SaveFault {
    #[error("Failed")]
    Failed(SaveStep),
    #[error("NoMemory")]
    NoMemory,
}

impl From<NoMemory> for SaveFault {
    ghost from_gives = { λ _ error. error ≡ fault.NoMemory };

    fn from(_error: NoMemory) -> SaveFault {
        SaveFault::NoMemory
    }
}
