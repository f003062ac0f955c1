//! How the program's work can end, and the exit status for each of these ends.

ghost use Rattle.std.specs.Prelude.{◌≡◌};
ghost use Rattle.text_works.specs.Statuses.{status_number};

use capture_script::CaptureCause;
use conf_text::ConfFault;
use replay_text::ScriptFault;
use world::NoMemory;

/// The answer of the top call.
#[derive(Clone, Copy, Debug, PartialEq, Eq)]
pub enum Status {
    /// All was read, and all was written.
    Done,
    /// The words are of no form.
    Usage,
    /// The input is no script.
    Script(ScriptFault),
    /// The configuration has a bad line, counted within it.
    Conf(ConfFault),
    ReadFault,
    WriteFault,
    /// The link couldn't begin, or a wait of it failed.
    LinkFault,
    /// As many wakes as were allowed were handled.
    TurnsOver,
    /// The input is longer than its limit.
    TooLong,
    NoMemory,
    /// The input is no lease file; its first bad line, from 1.
    Lease { line: u64 },
    /// The input is no capture of packets that can be imported.
    Capture(CaptureCause),
    /// The input is no schedule of a lab; its first bad line, from 1.
    Schedule { line: u64 },
    /// The input is no transcript; its first bad line, from 1.
    Transcript { line: u64 },
    /// A transcript shows an address without its basis.
    Unjustified,
}

impl From<NoMemory> for Status {
    ghost use Rattle.text_works.specs.declared.status.Status.TheVariants.{NoMemory as no_memory};

    ghost from_gives = { λ _ status. status ≡ no_memory };

    fn from(_error: NoMemory) -> Status {
        Status::NoMemory
    }
}

impl Status {
    /// The exit status of the program.
    pub fn number(self) -> u8
        ensures { result ≡ status_number self }
    {
        match self {
            Status::Done => 0,
            Status::Usage => 2,
            Status::Script(_) => 3,
            Status::Conf(_) => 4,
            Status::ReadFault => 5,
            Status::WriteFault => 6,
            Status::LinkFault => 7,
            Status::TurnsOver => 8,
            Status::TooLong => 9,
            Status::NoMemory => 10,
            Status::Transcript { .. } => 11,
            Status::Unjustified => 12,
            Status::Lease { .. } => 13,
            Status::Capture(_) => 14,
            Status::Schedule { .. } => 15,
        }
    }
}
