//! Input from bytes in memory and output into memory, which fail at the calls told beforehand.

ghost use Rattle.std.specs.Prelude.{◌≡◌, ◌≤◌, [], true, Some, length, IfOk};
ghost use Rattle.world.specs.Causes.{HasCause, HasDeviceCause};
ghost use Rattle.world.specs.Streams.{Reads, Writes, count_after, taken_after};
ghost use Rattle.world_mem.specs.StreamRecord.{SourceState, SinkState, call_fails, none_fails, next_call, calls_before, Counts, CountsWrite};

use call_record::{Numbers, fill_front};
use net_types::Failed;
use std::alloc::Global;
use std::marker::Model;
use world::{DeviceAnswer, Sink, Source};

/// Whether the next call, by its number from 1, is one of those that fail. Calls past the range of numbers have none.
fn is_due(next: Option<u64>, fails: &Numbers) -> bool
    ensures { result ≡ call_fails next fails.now }
{
    match next {
        Some(number) => fails.has(number),
        None => false,
    }
}

/// The number of the call after the next.
fn number_after(next: Option<u64>) -> Option<u64>
    ensures { result ≡ next_call next }
{
    match next {
        Some(number) => number.checked_add(1),
        None => None,
    }
}

/// Input in memory.
#[derive(Drop)]
pub struct MemSource {
    bytes: Vec<u8>,
    /// The place of the next byte.
    at: usize,
    next: Option<u64>,
    failed: u64,
    fails: Numbers,
}

impl Model for MemSource {
    ghost use Rattle.std.specs.Prelude.{drop, length, ◌≤◌};
    ghost use Rattle.world_mem.specs.StreamRecord.{SourceState, FewFailed};

    ghost Value = { SourceState };

    ghost view = { λ source.
        record {
          left = drop source.at source.bytes.items;
          taken = source.at;
          next = source.next;
          failed = source.failed;
          failing = source.fails;
        } };

    ghost invariant = { λ source. (source.at ≤ length source.bytes.items) × FewFailed source.failed source.next };
}

impl MemSource {
    /// Input of these bytes, that fails at the calls with these numbers, from 1.
    pub fn new(_alloc: Global, bytes: Vec<u8>, fails: Vec<u64>) -> MemSource
        ensures { result ≡ record { left = bytes.items; taken = 0; next = Some 1; failed = 0; failing = fails.items } }
    {
        MemSource {
            bytes,
            at: 0,
            next: Some(1),
            failed: 0,
            fails: Numbers::new(fails),
        }
    }
}

impl Source for MemSource {
    ghost faults = { λ source. source.failed };

    ghost never_fails = { λ source. none_fails source.failing };

    ghost reads = { λ source. calls_before source.next };

    ghost taken = { λ source. source.taken };

    ghost left = { λ source. Some source.left };

    /// Fails exactly at the calls that it is told.
    #[tactic(auto, using(crate::proofs::CallCounts::counted_once, crate::proofs::CallCounts::no_call_fails))]
    fn read(&mut self, buf: &mut [u8]) -> Result<usize, Failed>
        ensures cause { HasCause self.old.failed self.new.failed result }
        ensures steady { none_fails self.old.failing ≡ true → self.new.failed ≡ self.old.failed }
        ensures stays { none_fails self.new.failing ≡ none_fails self.old.failing }
        ensures counted { calls_before self.new.next ≡ count_after (calls_before self.old.next) }
        ensures taken { self.new.taken ≡ taken_after self.old.taken result }
        ensures room { IfOk result (λ n. n ≤ length buf.new) }
        ensures told { Reads (Some self.old.left) (Some self.new.left) buf.new result }
        ensures counts { Counts self.old self.new result }
    {
        let fails = is_due(self.next, &self.fails);
        self.next = number_after(self.next);
        if fails {
            self.failed += 1;
            return Err(Failed);
        }
        let len = fill_front(buf, &self.bytes[self.at..]);
        self.at += len;
        Ok(len)
    }
}

/// Output in memory.
#[derive(Drop)]
pub struct MemSink {
    written: Vec<u8>,
    next: Option<u64>,
    failed: u64,
    fails: Numbers,
}

impl Model for MemSink {
    ghost use Rattle.world_mem.specs.StreamRecord.{SinkState, FewFailed};

    ghost Value = { SinkState };

    ghost view = { λ sink.
        record { written = sink.written.items; next = sink.next; failed = sink.failed; failing = sink.fails } };

    ghost invariant = { λ sink. FewFailed sink.failed sink.next };
}

impl MemSink {
    /// Output that fails at the calls with these numbers, from 1.
    pub fn new(alloc: Global, fails: Vec<u64>) -> MemSink
        ensures { result ≡ record { written = []; next = Some 1; failed = 0; failing = fails.items } }
    {
        MemSink {
            written: Vec::new(alloc),
            next: Some(1),
            failed: 0,
            fails: Numbers::new(fails),
        }
    }

    /// The bytes written so far.
    pub fn bytes(&self) -> &[u8]
        ensures { result.now ≡ self.now.written }
    {
        &self.written
    }
}

impl Sink for MemSink {
    ghost faults = { λ sink. sink.failed };

    ghost never_fails = { λ sink. none_fails sink.failing };

    ghost written = { λ sink. Some sink.written };

    /// Fails exactly at the calls that it is told, and then writes nothing.
    #[tactic(auto, using(crate::proofs::CallCounts::no_call_fails))]
    fn write(&mut self, bytes: &[u8]) -> Result<(), DeviceAnswer>
        ensures cause { HasDeviceCause self.old.failed self.new.failed result }
        ensures steady { none_fails self.old.failing ≡ true → self.new.failed ≡ self.old.failed }
        ensures stays { none_fails self.new.failing ≡ none_fails self.old.failing }
        ensures told { Writes (Some self.old.written) (Some self.new.written) bytes.now result }
        ensures counts { CountsWrite self.old self.new result }
    {
        if is_due(self.next, &self.fails) {
            self.next = number_after(self.next);
            self.failed += 1;
            return Err(DeviceAnswer::Failed);
        }
        match self.written.extend_from_slice(bytes) {
            Ok(()) => {
                self.next = number_after(self.next);
                Ok(())
            }
            Err(_) => Err(DeviceAnswer::NoMemory),
        }
    }
}
