//! What a machine is asked about its clocks and a socket on 127.0.0.1, one call of the system at a time, and what is
//! told of each call.

ghost use Rattle.std.specs.Prelude.{◌≡◌, ◌≤◌, [], ◌∷◌, List, Option, length, option_map, IfOk};
ghost use Rattle.system_calls.specs.Asking.{Does, failure_of};
ghost use Rattle.world.specs.LinkCalls.{LinkCall};
ghost use Rattle.loop_link.specs.LinkNotes.{RestsOn, noted};
ghost use Rattle.loop_link.specs.WireCalls.{WireCall, Bound, Limited, Received, Sent, WallRead, SteadyRead, arrived, wall_nanos, steady_nanos};

use std::io::ErrorKind;
use std::net::SocketAddr;
use std::time::{Instant, SystemTime};
use world::Wake;

/// The address 127.0.0.1 as a number.
pub(crate) const LOOPBACK: u32 = 0x7f00_0001;

/// What a link has to note of its waits and sends: a wait until a moment with the wake that it gave and the buffer that
/// has its frame, one that failed, a frame that was sent for an interface, and one that wasn't.
#[derive(Clone, Copy)]
pub enum LinkNote<'a> {
    Woke(Option<u64>, Wake, &'a [u8]),
    NotWoken(Option<u64>),
    Sent(u32, &'a [u8]),
    Unsent(u32, &'a [u8]),
}

/// A socket of the loopback address, and the clocks of a machine. Each method but `note` is one call of the system. A
/// call that gave nothing says why.
pub trait Loopback {
    /// The calls so far with their answers, the last one first, where these are told.
    ghost calls: { Self → Option (List WireCall) };

    /// What a link noted of its waits and sends, where that is told.
    ghost link: { Self → Option (List LinkCall) };

    /// Gives the socket a port of 127.0.0.1.
    fn bind(&mut self, port: u16) -> Result<(), ErrorKind>
        ensures told { Does (Bound port (failure_of result) ∷ []) (calls self.old) (calls self.new) }
        ensures link { link self.new ≡ link self.old };

    /// Says how many milliseconds a receiving is to wait at most.
    fn limit(&mut self, millis: u64) -> Result<(), ErrorKind>
        ensures told { Does (Limited millis (failure_of result) ∷ []) (calls self.old) (calls self.new) }
        ensures link { link self.new ≡ link self.old };

    /// Receives a datagram at the front of `buf`, cut to its room, and says how long it is and who sent it.
    fn receive(&mut self, buf: &mut [u8]) -> Result<(usize, SocketAddr), ErrorKind>
        ensures room { IfOk result (λ got. got.0 ≤ length buf.new) }
        ensures told { Does (Received (arrived buf.new result) ∷ []) (calls self.old) (calls self.new) }
        ensures link { link self.new ≡ link self.old };

    /// Sends a datagram to a port of 127.0.0.1, and says how many bytes it has.
    fn send(&mut self, datagram: &[u8], port: u16) -> Result<usize, ErrorKind>
        ensures told { Does (Sent datagram.now port (failure_of result) ∷ []) (calls self.old) (calls self.new) }
        ensures link { link self.new ≡ link self.old };

    /// What the wall clock reads.
    fn wall(&mut self) -> Result<SystemTime, ErrorKind>
        ensures told { Does (WallRead (wall_nanos result) ∷ []) (calls self.old) (calls self.new) }
        ensures link { link self.new ≡ link self.old };

    /// What the clock reads that nobody sets.
    fn steady(&mut self) -> Result<Instant, ErrorKind>
        ensures told { Does (SteadyRead (steady_nanos result) ∷ []) (calls self.old) (calls self.new) }
        ensures link { link self.new ≡ link self.old };

    /// Notes a call of the link whose peer has this port: only one that rests on the calls of the system. Nothing is
    /// asked of the system.
    fn note(&mut self, peer: u16, call: LinkNote<'_>)
        requires { RestsOn peer call (calls self.old) }
        ensures told { calls self.new ≡ calls self.old }
        ensures link { link self.new ≡ option_map (noted call.entry) (link self.old) };
}
