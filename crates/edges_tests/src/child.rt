//! Child processes in memory, for tests: a script that keeps the rows of a host, and hooks that succeed unless a call
//! is to fail.

use crate::failing::Failing;
use edges::{Children, HookNote, HostNote, Watch};
use std::alloc::{AllocError, Global};
use std::io::ErrorKind;
use std::process::{Command, ExitStatus, Output};

/// How often a child is asked until it has ended.
const ASKED: u32 = 2;

/// Scripts in memory: one that keeps the rows of a host, and hooks that end with status 0 when they are asked again.
#[derive(Drop)]
pub(crate) struct MemChildren {
    alloc: Global,
    failing: Failing,
    /// A line for each row, without its end.
    rows: Vec<String>,
    asked: u32,
}

/// The words of a call, with a blank between each two.
fn line_of(alloc: Global, call: &Command) -> Result<String, AllocError> {
    let mut line = String::new(alloc);
    for word in call.get_args() {
        if !line.is_empty() {
            line.push(' ')?;
        }
        line.push_str(word)?;
    }
    Ok(line)
}

impl MemChildren {
    pub(crate) fn new(alloc: Global, failing: Failing) -> MemChildren {
        MemChildren {
            alloc,
            failing,
            rows: Vec::new(alloc),
            asked: 0,
        }
    }

    /// What a script does with such words.
    fn work(&mut self, line: &str) -> Result<(), AllocError> {
        if let Some(row) = line.strip_prefix("host-add ") {
            let row = String::from_str(self.alloc, row)?;
            self.rows.push(row)?;
        }
        if let Some(row) = line.strip_prefix("host-del ") {
            self.rows.retain(|held| held.as_str() != row);
        }
        Ok(())
    }

    fn listing(&self) -> Result<Vec<u8>, AllocError> {
        let mut text = Vec::new(self.alloc);
        for row in &self.rows {
            text.extend_from_slice(row.as_bytes())?;
            text.push(b'\n')?;
        }
        Ok(text)
    }
}

impl Children for MemChildren {
    ghost use Rattle.std.specs.Prelude.{None};

    ghost calls = { λ children. None };

    ghost tables = { λ children script. None };

    ghost hooks = { λ children. None };

    fn start(&mut self, call: &mut Command) -> Result<(), ErrorKind> {
        self.failing.call()?;
        let Ok(line) = line_of(self.alloc, call) else {
            return Err(ErrorKind::OutOfMemory);
        };
        self.asked = 0;
        match self.work(&line) {
            Ok(()) => Ok(()),
            Err(_) => Err(ErrorKind::OutOfMemory),
        }
    }

    fn ask(&mut self) -> Result<Option<ExitStatus>, ErrorKind> {
        self.failing.call()?;
        self.asked = self.asked.saturating_add(1);
        Ok((self.asked >= ASKED).then_some(ExitStatus::default()))
    }

    fn kill(&mut self) -> Result<(), ErrorKind> {
        self.failing.call()
    }

    fn wait(&mut self) -> Result<ExitStatus, ErrorKind> {
        self.failing.call()?;
        Ok(ExitStatus::default())
    }

    fn print(&mut self, _call: &mut Command) -> Result<Output, ErrorKind> {
        self.failing.call()?;
        match self.listing() {
            Ok(stdout) => Ok(Output {
                status: ExitStatus::default(),
                stdout,
                stderr: Vec::new(self.alloc),
            }),
            Err(_) => Err(ErrorKind::OutOfMemory),
        }
    }

    fn note_host(&mut self, _script: &str, _call: HostNote) {}

    fn note_hook(&mut self, _call: HookNote<'_>) {}
}

/// Who sees no child.
#[derive(Drop)]
pub(crate) struct NoWatch;

impl Watch for NoWatch {
    ghost use Rattle.std.specs.Prelude.{Some, false};

    ghost ended = { λ watch. Some false };

    fn look(&self) -> Option<Result<Option<ExitStatus>, ErrorKind>> {
        None
    }
}
