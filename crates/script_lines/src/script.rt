//! A script.
use net_types::IfSpec;
use script_model::{CrashKind, FailLine};
use world::{Begin, HostRow, Poll, Wake};

/// A file that the store holds at first.
#[derive(Drop)]
pub struct FileLine {
    /// 1 to 64 letters, digits, `.`, `_` and `-`.
    pub name: String,
    pub bytes: Vec<u8>,
}

/// A wake with the bytes of its frame.
#[derive(Drop)]
pub struct TurnLine {
    pub wake: Wake,
    pub bytes: Vec<u8>,
}

/// How the store crashes at the end of a life.
#[derive(Clone, Copy, Debug, PartialEq, Eq)]
pub struct CrashLine {
    /// So many calls of the life are answered as ever, and all later ones fail; `None` for no such limit.
    pub calls: Option<u64>,
    /// What the next life finds.
    pub kind: CrashKind,
}

/// A life: how it begins, what comes in its turns, and how the store crashes when they are over.
#[derive(Drop)]
pub struct LifeLines {
    pub begin: Begin,
    pub turns: Vec<TurnLine>,
    /// Each life that another one follows has it.
    pub crash: Option<CrashLine>,
}

/// What a script says.
#[derive(Drop)]
pub struct Script {
    /// The lines of the configuration, each with its line feed.
    pub conf: Vec<u8>,
    /// The interfaces of the host, numbered from 1.
    pub ifaces: Vec<IfSpec>,
    /// The rows that the host holds at first.
    pub rows: Vec<HostRow>,
    /// The files that the store holds at first; their names are unlike.
    pub files: Vec<FileLine>,
    /// The calls of devices that fail.
    pub fails: Vec<FailLine>,
    /// What polls of hooks answer in order, over all lives; `None` for a poll that fails. Later ones answer `Ended(0)`.
    pub polls: Vec<Option<Poll>>,
    /// The lives, one after another over the same host and store.
    pub lives: Vec<LifeLines>,
}
