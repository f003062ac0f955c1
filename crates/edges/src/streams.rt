//! The standard streams.

ghost use Rattle.std.specs.Prelude.{◌≡◌, false, None, Ok};
ghost use Rattle.world.specs.Streams.{taken_after};

use std::io::{Read, Write};
use std::rt::{Stdin, Stdout};
use system_calls::Faults;
use world::{DeviceAnswer, Failed, Sink, Source};

/// The standard input. What it holds isn't told. It is at its end after 2^64 - 1 failures, which don't come.
#[derive(Drop)]
pub struct StdSource {
    stdin: Stdin,
    faults: Faults,
    reads: u64,
    taken: u64,
}

impl StdSource {
    /// The standard input, of which nothing was read.
    pub fn new(stdin: Stdin) -> StdSource {
        StdSource {
            stdin,
            faults: Faults::none(),
            reads: 0,
            taken: 0,
        }
    }

    /// Counts the bytes that a read took.
    fn count(&mut self, n: usize) -> usize
        ensures counted { self.new ≡ record self.old { taken = taken_after self.old.taken (Ok n) } }
        ensures same { result ≡ n }
    {
        self.taken = self.taken.saturating_add(n as u64);
        n
    }
}

impl Source for StdSource {
    ghost faults = { λ source. source.faults.count };

    ghost never_fails = { λ source. false };

    ghost reads = { λ source. source.reads };

    ghost taken = { λ source. source.taken };

    ghost left = { λ source. None };

    fn read(&mut self, buf: &mut [u8]) -> Result<usize, Failed> {
        self.reads = self.reads.saturating_add(1);
        match self.stdin.read(buf) {
            Ok(n) => Ok(self.count(n)),
            Err(_) => {
                let n = self.faults.failed(0)?;
                Ok(self.count(n))
            }
        }
    }
}

/// The standard output. What is written isn't told.
#[derive(Drop)]
pub struct StdSink {
    stdout: Stdout,
    faults: Faults,
}

impl StdSink {
    /// The standard output.
    pub fn new(stdout: Stdout) -> StdSink {
        StdSink {
            stdout,
            faults: Faults::none(),
        }
    }
}

#[tactic(auto, using(system_calls::proofs::Causing::counted_cause))]
impl Sink for StdSink {
    ghost faults = { λ sink. sink.faults.count };

    ghost never_fails = { λ sink. false };

    ghost written = { λ sink. None };

    fn write(&mut self, bytes: &[u8]) -> Result<(), DeviceAnswer> {
        match self.stdout.write_all(bytes) {
            Ok(()) => Ok(()),
            Err(_) => Err(self.faults.counted(DeviceAnswer::Failed)),
        }
    }
}
