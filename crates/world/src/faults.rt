//! The two failures that calls of a device tell apart: its own, and want of memory.

ghost use Rattle.std.specs.Prelude.{◌≡◌};
ghost use Rattle.world.specs.Causes.{done_of};

use net_types::NoMemory;
use thiserror::Error;

/// Why a device call gave nothing: the device failed, or memory ran out.
#[derive(Clone, Copy, Debug, PartialEq, Eq, Error)]
pub enum DeviceAnswer {
    #[error("Failed")]
    Failed,
    #[error("NoMemory")]
    NoMemory,
}

/// Whether the call was done. Want of memory is handed on.
pub fn done(answer: Result<(), DeviceAnswer>) -> Result<bool, NoMemory>
    ensures { result ≡ done_of answer }
{
    match answer {
        Ok(()) => Ok(true),
        Err(DeviceAnswer::Failed) => Ok(false),
        Err(DeviceAnswer::NoMemory) => Err(NoMemory),
    }
}
