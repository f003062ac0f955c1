//! A socket of the loopback address and clocks in memory: what is received is given beforehand, what is sent goes to
//! nobody, and each reading of a clock is a millisecond after the last. The calls are told.

ghost use Rattle.std.specs.Prelude.{◌≡◌, [], ◌∷◌, map, None};
ghost use Rattle.std.specs.Time.{instant_nanos, system_time_nanos};
ghost use Rattle.telling_machines.specs.LineRecord.{datagram_of};
ghost use Rattle.telling_machines.specs.WireEntries.{call_of};

use crate::wire_records::{LinkRecord, WireEntry, WireRecord};
use call_record::fill_front;
use loop_link::{LinkNote, Loopback};
use std::io::ErrorKind;
use std::marker::Model;
use std::net::SocketAddr;
use std::time::{Duration, Instant, SystemTime};

/// By how many milliseconds a clock goes on at each reading.
const TICK: u64 = 1;

/// A datagram that is to come.
#[derive(Drop)]
pub struct Datagram {
    pub bytes: Vec<u8>,
    pub sender: SocketAddr,
}

/// The socket and the clocks.
#[derive(Drop)]
pub struct MemLine {
    coming: Vec<Datagram>,
    /// The place of the next datagram.
    next: usize,
    port: Option<u16>,
    wall: SystemTime,
    steady: Instant,
    calls: WireRecord,
    noted: LinkRecord,
}

impl Model for MemLine {
    ghost use Rattle.std.specs.Prelude.{map, drop};
    ghost use Rattle.std.specs.Time.{instant_nanos, system_time_nanos};
    ghost use Rattle.telling_machines.specs.LineRecord.{LineState, datagram_of};

    ghost Value = { LineState };

    ghost view = { λ line. record {
      calls = line.calls.calls;
      noted = line.noted.noted;
      coming = map datagram_of (drop line.next line.coming.items);
      port = line.port;
      wall = system_time_nanos line.wall;
      steady = instant_nanos line.steady;
    } };
}

impl MemLine {
    /// A machine whose clocks read this, and which receives these datagrams in order.
    pub fn new(coming: Vec<Datagram>, wall: SystemTime, steady: Instant) -> MemLine
        ensures { result
            ≡ record {
              calls = [];
              noted = [];
              coming = map datagram_of coming.items;
              port = None;
              wall = system_time_nanos wall;
              steady = instant_nanos steady;
            } }
    {
        MemLine {
            coming,
            next: 0,
            port: None,
            wall,
            steady,
            calls: WireRecord::new(),
            noted: LinkRecord::new(),
        }
    }

    /// Tells a call of the system.
    fn tell(&mut self, entry: WireEntry<'_>)
        ensures { self.new ≡ record self.old { calls = call_of entry.entry ∷ self.old.calls } }
    {
        self.calls = WireRecord::with(&self.calls, &entry);
    }
}

impl Loopback for MemLine {
    ghost use Rattle.std.specs.Prelude.{Some};

    ghost calls = { λ line. Some line.calls };

    ghost link = { λ line. Some line.noted };

    /// A socket has one port.
    fn bind(&mut self, port: u16) -> Result<(), ErrorKind> {
        if self.port.is_some() {
            self.tell(WireEntry::Bound(port, Some(ErrorKind::InvalidInput)));
            return Err(ErrorKind::InvalidInput);
        }
        self.port = Some(port);
        self.tell(WireEntry::Bound(port, None));
        Ok(())
    }

    /// A receiving never waits. It can't be told to wait for no time.
    fn limit(&mut self, millis: u64) -> Result<(), ErrorKind> {
        if millis == 0 {
            self.tell(WireEntry::Limited(millis, Some(ErrorKind::InvalidInput)));
            return Err(ErrorKind::InvalidInput);
        }
        self.tell(WireEntry::Limited(millis, None));
        Ok(())
    }

    fn receive(&mut self, buf: &mut [u8]) -> Result<(usize, SocketAddr), ErrorKind> {
        let Some(datagram) = self.coming.get(self.next) else {
            self.tell(WireEntry::Received(Err(ErrorKind::WouldBlock)));
            return Err(ErrorKind::WouldBlock);
        };
        let len = fill_front(buf, &datagram.bytes);
        let sender = datagram.sender;
        self.next += 1;
        self.tell(WireEntry::Received(Ok((&buf[..len], sender))));
        Ok((len, sender))
    }

    /// A socket without a port sends nothing.
    fn send(&mut self, datagram: &[u8], port: u16) -> Result<usize, ErrorKind> {
        if self.port.is_none() {
            self.tell(WireEntry::Sent(datagram, port, Some(ErrorKind::NotConnected)));
            return Err(ErrorKind::NotConnected);
        }
        self.tell(WireEntry::Sent(datagram, port, None));
        Ok(datagram.len())
    }

    fn wall(&mut self) -> Result<SystemTime, ErrorKind> {
        let Some(wall) = self.wall.checked_add(Duration::from_millis(TICK)) else {
            self.tell(WireEntry::WallRead(Err(ErrorKind::Other)));
            return Err(ErrorKind::Other);
        };
        self.wall = wall;
        self.tell(WireEntry::WallRead(Ok(wall)));
        Ok(wall)
    }

    fn steady(&mut self) -> Result<Instant, ErrorKind> {
        let Some(steady) = self.steady.checked_add(Duration::from_millis(TICK)) else {
            self.tell(WireEntry::SteadyRead(Err(ErrorKind::Other)));
            return Err(ErrorKind::Other);
        };
        self.steady = steady;
        self.tell(WireEntry::SteadyRead(Ok(steady)));
        Ok(steady)
    }

    fn note(&mut self, _peer: u16, call: LinkNote<'_>) {
        self.noted = LinkRecord::with(&self.noted, &call);
    }
}
