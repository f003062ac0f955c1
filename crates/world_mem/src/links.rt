//! A stand-in for network interfaces, clock and signals: what comes and what fails is told beforehand, and waits and
//! offered frames are recorded.

ghost use Rattle.std.specs.Prelude.{◌≡◌, [], length, take, map};
ghost use Rattle.world.specs.LinkCalls.{frame_len, cut_wake};
ghost use Rattle.world_mem.specs.LinkRecord.{given_of, link_start};

use call_record::{Numbers, copy_bytes, enter, fill_front, make_room, next_number};
use net_types::{Failed, IfIndex};
use std::alloc::Global;
use std::marker::Model;
use world::{Begin, DeviceAnswer, Event, Link, Wake};

/// A wake that is to come, with the bytes of its frame.
#[derive(Drop)]
pub struct MemWake {
    pub wake: Wake,
    pub bytes: Vec<u8>,
}

/// A call that a link answered. What a wait gave follows from the wakes and the waits before it.
#[derive(Drop)]
pub(crate) enum LinkEntry {
    /// A wait until a moment at the latest, with a buffer of so many bytes.
    Wait {
        until: Option<u64>,
        room: usize,
    },
    FailedWait {
        until: Option<u64>,
    },
    Send {
        iface: u32,
        frame: Vec<u8>,
        taken: bool,
    },
}

/// The interfaces, the clock and the signals in memory.
#[derive(Drop)]
pub struct MemLink {
    alloc: Global,
    begin: Begin,
    wakes: Vec<MemWake>,
    /// The place of the next wake.
    next: usize,
    waits: u64,
    sends: u64,
    /// How often it was asked to begin.
    begins: u64,
    /// How many sends earlier lives made.
    earlier: u64,
    calls: Vec<LinkEntry>,
    failing_sends: Numbers,
    failing_waits: Numbers,
}

impl Model for MemLink {
    ghost use Rattle.world_mem.specs.LinkRecord.{LinkState, HoldsWakes, told_of, link_start};

    ghost Value = { LinkState };

    ghost view = { λ link. record {
      told = told_of (link_start link.begin link.wakes.items link.earlier) link.calls.items;
      begins = link.begins;
      failing_waits = link.failing_waits;
      failing_sends = link.failing_sends;
    } };

    ghost invariant = { λ link.
        HoldsWakes (told_of (link_start link.begin link.wakes.items link.earlier) link.calls.items)
        link.begin link.wakes.items link.next link.waits link.sends };
}

impl MemLink {
    /// A link that begins so and gives these wakes in order, then `End`. Earlier lives made `sent` sends.
    /// It fails at the sends and the waits with these numbers: sends from 1 over all lives, waits from 1.
    pub fn new(
        alloc: Global,
        begin: Begin,
        wakes: Vec<MemWake>,
        sent: u64,
        sends: Vec<u64>,
        waits: Vec<u64>,
    ) -> MemLink
        ensures { result
            ≡ record {
              told = link_start begin wakes.items sent;
              begins = 0;
              failing_waits = waits.items;
              failing_sends = sends.items;
            } }
    {
        MemLink {
            alloc,
            begin,
            wakes,
            next: 0,
            waits: 0,
            sends: sent,
            begins: 0,
            earlier: sent,
            calls: Vec::new(alloc),
            failing_sends: Numbers::new(sends),
            failing_waits: Numbers::new(waits),
        }
    }

    /// How many sends were answered, those of earlier lives included.
    pub fn sent(&self) -> u64
        ensures { result ≡ self.now.told.sends }
    {
        self.sends
    }
}

/// Puts a wake's frame at the front of a buffer, as much of it as there is room for.
fn give(coming: &MemWake, buf: &mut [u8]) -> Wake
    ensures wake { result ≡ cut_wake (given_of coming.now) (length buf.old) }
    ensures bytes { take (frame_len result.event) buf.new ≡ take (frame_len result.event) coming.now.bytes.items }
{
    let event = match coming.wake.event {
        Event::Frame { iface, .. } => Event::Frame {
            iface,
            len: fill_front(buf, &coming.bytes),
        },
        Event::Carrier { .. }
        | Event::Duplicate { .. }
        | Event::Release { .. }
        | Event::Rebind { .. }
        | Event::Stop
        | Event::Quiet
        | Event::End => coming.wake.event,
    };
    Wake {
        at: coming.wake.at,
        salt: coming.wake.salt,
        event,
    }
}

impl Link for MemLink {
    ghost use Rattle.std.specs.Prelude.{Some, count_by};
    ghost use Rattle.world_mem.specs.LinkRecord.{wait_failed, send_failed};

    ghost faults = { λ link. count_by wait_failed link.told.calls };

    ghost send_faults = { λ link. count_by send_failed link.told.calls };

    ghost begins = { λ link. link.begins };

    ghost told = { λ link. Some link.told };

    ghost calls = { λ link. Some link.told.calls };

    ghost failing_waits = { λ link. Some link.failing_waits };

    ghost failing_sends = { λ link. Some link.failing_sends };

    fn begin(&mut self) -> Result<Begin, Failed> {
        self.begins = self.begins.saturating_add(1);
        Ok(self.begin)
    }

    #[tactic(auto, using(crate::proofs::LinkAdds::wait_added))]
    fn wait(&mut self, until: Option<u64>, buf: &mut [u8]) -> Result<Wake, DeviceAnswer> {
        let number = next_number(self.waits)?;
        make_room(&mut self.calls, 1)?;
        if self.failing_waits.has(number) {
            enter(&mut self.calls, LinkEntry::FailedWait { until });
            self.waits = number;
            return Err(DeviceAnswer::Failed);
        }
        let room = buf.len();
        enter(&mut self.calls, LinkEntry::Wait { until, room });
        self.waits = number;
        match self.wakes.get(self.next) {
            Some(coming) => {
                self.next += 1;
                Ok(give(coming, buf))
            }
            None => Ok(Wake {
                at: 0,
                salt: 0,
                event: Event::End,
            }),
        }
    }

    fn send(&mut self, iface: IfIndex, frame: &[u8]) -> Result<(), DeviceAnswer> {
        let number = next_number(self.sends)?;
        make_room(&mut self.calls, 1)?;
        let copy = copy_bytes(self.alloc, frame)?;
        let fails = self.failing_sends.has(number);
        enter(
            &mut self.calls,
            LinkEntry::Send {
                iface: iface.number,
                frame: copy,
                taken: !fails,
            },
        );
        self.sends = number;
        if fails {
            return Err(DeviceAnswer::Failed);
        }
        Ok(())
    }
}
