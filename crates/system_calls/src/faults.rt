//! The count of a device's failed calls, and what the device answers where a call of the system gave nothing.

ghost use Rattle.std.specs.Prelude.{◌≡◌, ◌<◌, ◌-◌, ◌^◌, IfOk, IfErr, IsErr, OnOk};
ghost use Rattle.world.specs.Causes.{HasCause, HasDeviceCause};
ghost use Rattle.system_calls.specs.Asking.{failure_of, reason_of};
ghost use Rattle.system_calls.specs.Counts.{Counted, AnswersAs};

use std::io::ErrorKind;
use world::{DeviceAnswer, Failed};

/// How many calls of a device failed, up to 2^64 - 1. A device that can count no more answers that memory is wanted; it
/// doesn't come to that.
#[derive(Clone, Copy)]
pub struct Faults {
    count: u64,
}

#[tactic(auto, using(crate::proofs::Causing::counted_cause))]
impl Faults {
    /// No call failed yet.
    pub fn none() -> Faults
        ensures { result.count ≡ 0 }
    {
        Faults { count: 0 }
    }

    /// Whether one more failure can be counted.
    pub fn room(&self) -> Result<(), DeviceAnswer>
        ensures room { OnOk result (self.now.count < 2 ^ 64 - 1) }
        ensures err { IfErr result (λ answer. answer ≡ DeviceAnswer.NoMemory) }
    {
        if self.count < u64::MAX {
            Ok(())
        } else {
            Err(DeviceAnswer::NoMemory)
        }
    }

    /// Counts a call that gave nothing, unless it wanted memory, and says why it gave nothing.
    pub fn counted(&mut self, answer: DeviceAnswer) -> DeviceAnswer
        ensures counted { Counted self.old.count self.new.count result }
        ensures same { self.old.count < 2 ^ 64 - 1 → result ≡ answer }
    {
        if let DeviceAnswer::Failed = answer
            && let Some(count) = self.count.checked_add(1)
        {
            self.count = count;
            return DeviceAnswer::Failed;
        }
        DeviceAnswer::NoMemory
    }

    /// Counts a call that failed and takes no memory. Where there is no room to count it, it answers `otherwise`.
    pub fn failed<T: Drop>(&mut self, otherwise: T) -> Result<T, Failed>
        ensures cause { HasCause self.old.count self.new.count result }
        ensures otherwise { IfOk result (λ answer. answer ≡ otherwise) }
        ensures counts { self.old.count < 2 ^ 64 - 1 → IsErr result }
    {
        match self.count.checked_add(1) {
            Some(count) => {
                self.count = count;
                Err(Failed)
            }
            None => Ok(otherwise),
        }
    }

    /// The answer of calls of the system that may have changed something: without success they failed, whatever the
    /// reason.
    pub fn answered(&mut self, answer: Result<(), ErrorKind>) -> Result<(), DeviceAnswer>
        ensures cause { HasDeviceCause self.old.count self.new.count result }
        ensures as_asked { self.old.count < 2 ^ 64 - 1 → AnswersAs (failure_of answer) result }
    {
        match answer {
            Ok(()) => Ok(()),
            Err(_) => Err(self.counted(DeviceAnswer::Failed)),
        }
    }
}

/// Why a call of the system that changes nothing gave nothing.
pub fn reason(kind: ErrorKind) -> DeviceAnswer
    ensures { result ≡ reason_of kind }
{
    match kind {
        ErrorKind::OutOfMemory => DeviceAnswer::NoMemory,
        _ => DeviceAnswer::Failed,
    }
}
