//! The lines of the table: what is to be told of a life, how many wakes it may handle, and which calls fail in it.

use crate::failing::Failing;
use std::alloc::{AllocError, Global};
use std::io::ErrorKind;

/// What is to be told of a life.
#[derive(Clone, Copy, PartialEq, Eq)]
pub(crate) enum Lines {
    /// Each line of its transcript.
    All,
    /// The lines of calls that failed.
    Failed,
}

/// How many wakes a life may handle, where its line doesn't say.
const TURNS: u64 = 1000;

/// A life, by the calls that fail of each part of the machine.
#[derive(Clone, Copy)]
pub(crate) struct Case {
    pub(crate) lines: Lines,
    pub(crate) turns: u64,
    pub(crate) disk: Failing,
    pub(crate) hooks: Failing,
    pub(crate) host: Failing,
    pub(crate) line: Failing,
}

fn lines_of(word: &str) -> Option<Lines> {
    match word {
        "all" => Some(Lines::All),
        "failed" => Some(Lines::Failed),
        _ => None,
    }
}

fn kind_of(word: &str) -> Option<ErrorKind> {
    match word {
        "Interrupted" => Some(ErrorKind::Interrupted),
        "NotFound" => Some(ErrorKind::NotFound),
        "Other" => Some(ErrorKind::Other),
        "OutOfMemory" => Some(ErrorKind::OutOfMemory),
        "PermissionDenied" => Some(ErrorKind::PermissionDenied),
        "StorageFull" => Some(ErrorKind::StorageFull),
        _ => None,
    }
}

impl Case {
    fn new(lines: Lines) -> Case {
        let none = Failing::none();
        Case {
            lines,
            turns: TURNS,
            disk: none,
            hooks: none,
            host: none,
            line: none,
        }
    }

    fn part_mut(&mut self, word: &str) -> Option<&mut Failing> {
        match word {
            "disk" => Some(&mut self.disk),
            "hooks" => Some(&mut self.hooks),
            "host" => Some(&mut self.host),
            "line" => Some(&mut self.line),
            _ => None,
        }
    }

    /// One more call fails: that of this part of the machine, with this number.
    fn fail(&mut self, part: &str, call: &str, kind: &str) -> Option<()> {
        let call = call.parse().ok()?;
        let kind = kind_of(kind)?;
        self.part_mut(part)?.add(call, kind);
        Some(())
    }

    /// What three words say: how many wakes are allowed, or that one more call fails.
    fn put(&mut self, part: &str, number: &str, kind: &str) -> Option<()> {
        if part == "turns" {
            self.turns = number.parse().ok()?;
            return Some(());
        }
        self.fail(part, number, kind)
    }

    /// The case of these words: what is told, and three words for each thing that is said of the life.
    fn of_words(words: &[&str]) -> Option<Case> {
        let (lines, rest) = words.split_first()?;
        let mut case = Case::new(lines_of(lines)?);
        for three in rest.chunks_exact(3) {
            if let [part, number, kind] = three {
                case.put(part, number, kind)?;
            }
        }
        Some(case)
    }

    /// The case of a line of the table; `None` where it's no such line.
    pub(crate) fn read(alloc: Global, line: &str) -> Result<Option<Case>, AllocError> {
        let words: Vec<&str> = line.split(' ').collect(alloc)?;
        Ok(Case::of_words(&words))
    }
}
