//! The interfaces as datagrams between two ports of the loopback address, and the waits for what comes there.

ghost use Rattle.std.specs.Prelude.{◌≡◌, ◌<◌, ◌≤◌, ◌-◌, ◌^◌, true, false, length, None, Some, if◌then◌else◌, option_map, IfOk, IfSome, OnErr};
ghost use Rattle.loop_link.specs.Ports.{port_named};
ghost use Rattle.loop_link.specs.Waiting.{wait_end, piece_of, glancing, is_over, last_told, has_come, IsOver, IsDue, IsDueBy, IsAwaited};
ghost use Rattle.world.specs.Causes.{HasCause, HasDeviceCause};
ghost use Rattle.loop_link.specs.WireCalls.{BeginsLife, Binds, Receives, Sends, is_from};
ghost use Rattle.loop_link.specs.LinkNotes.{RestsOn, noted};
ghost use Rattle.loop_link.specs.Waits.{HearsNone, Brings, BringsYet};
ghost use Rattle.world.specs.LinkCalls.{frame_len, AddsWait, AddsOffer};
ghost use Rattle.world.specs.Streams.{count_after};

use crate::datagrams::{FRAME_LIMIT, HEAD, frame_datagram, taken};
use crate::loopback::{LOOPBACK, LinkNote, Loopback};
use crate::moments::Moments;
use crate::salts::Salts;
use crate::watching::{Seen, Watch, is_ended, seen_by};
use net_types::{IfIndex, number_of};
use rand_core::utils::NextWord;
use std::alloc::Global;
use std::io::ErrorKind;
use std::net::SocketAddr;
use system_calls::Faults;
use world::{Begin, DeviceAnswer, Event, Failed, Link, Wake};

/// How many milliseconds the link waits where no moment is asked for.
pub(crate) const IDLE: u64 = 60_000;

/// How many milliseconds a piece of a wait lasts at most.
pub(crate) const LONGEST: u64 = 0xffff_ffff;

/// How many milliseconds a last piece of a wait lasts at most.
pub(crate) const SHORT: u64 = 200;

/// After how many milliseconds a child that runs is looked at again.
pub(crate) const GLANCE: u64 = 10;

/// One more than the last port.
const PORT_LIMIT: u64 = 65_536;

/// When a wait that begins now ends.
fn wait_end(until: Option<u64>, now: u64) -> u64
    ensures { result ≡ wait_end until now }
{
    match until {
        Some(until) => until,
        None => now.saturating_add(IDLE),
    }
}

/// How many milliseconds the next piece of a wait lasts, of which so many are left.
fn piece_of(left: u64) -> u64
    ensures { result ≡ piece_of left }
{
    if left <= SHORT {
        left.max(1)
    } else {
        (left - left / 8).min(LONGEST)
    }
}

/// The same where a child is looked at in between.
fn glancing(seen: Seen, piece: u64) -> u64
    ensures { result ≡ glancing seen piece }
{
    match seen {
        Seen::NoChild => piece,
        Seen::Runs => piece.min(GLANCE),
        Seen::Ended => 1,
    }
}

/// Whether a piece of a wait is over without a datagram: its time ran out, or a signal cut it short, as after a pause
/// of the process.
fn is_over(kind: ErrorKind) -> bool
    ensures { result ≡ is_over kind }
{
    matches!(
        kind,
        ErrorKind::WouldBlock | ErrorKind::TimedOut | ErrorKind::Interrupted
    )
}

/// The port that a word names; 0 where it names none.
fn port_of(word: &str) -> u16
    ensures { result ≡ port_named word.now }
{
    match number_of(word.as_bytes(), PORT_LIMIT) {
        Some(port) => port as u16,
        None => 0,
    }
}

/// The socket, the clocks and the random words of a link, and who watches the child that hooks run.
#[derive(Drop)]
struct Wire<L: Loopback + Drop, W: Watch + Drop> {
    alloc: Global,
    line: L,
    watch: W,
    port: u16,
    peer: u16,
    bound: bool,
    moments: Option<Moments>,
    salts: Salts,
}

/// How long the datagram is that came, where the peer sent it.
fn from_peer(len: usize, sender: SocketAddr, peer: u16) -> Option<usize>
    ensures { result ≡ if is_from peer sender then Some len else None }
{
    match sender {
        SocketAddr::V4(address) => {
            let is_here = u32::from(*address.ip()) == LOOPBACK;
            (is_here && address.port() == peer).then_some(len)
        }
        SocketAddr::V6(_) => None,
    }
}

/// What a receiving that failed gives: nothing where none came.
fn nothing_came(kind: ErrorKind) -> Result<Option<usize>, Failed>
    ensures none { IfOk result (λ got. (got ≡ None) × (is_over kind ≡ true)) }
    ensures failed { OnErr result (is_over kind ≡ false) }
{
    if is_over(kind) { Ok(None) } else { Err(Failed) }
}

#[tactic(auto, using(crate::proofs::WaitSteps::waits_go_on, crate::proofs::WaitEnds::waits_end))]
impl<L: Loopback + Drop, W: Watch + Drop> Wire<L, W> {
    /// Binds the socket, where that wasn't done before.
    fn bind(&mut self) -> Result<(), Failed>
        ensures bound { IfOk result (λ _. self.new.bound ≡ true) }
        ensures ports { (self.new.port ≡ self.old.port) × (self.new.peer ≡ self.old.peer) }
        ensures asked { Binds self.old.bound self.old.port (L.calls self.old.line) (L.calls self.new.line) result }
        ensures link { L.link self.new.line ≡ L.link self.old.line }
    {
        if self.bound {
            return Ok(());
        }
        match self.line.bind(self.port) {
            Ok(()) => {
                self.bound = true;
                Ok(())
            }
            Err(_) => Err(Failed),
        }
    }

    /// All interfaces have carrier at first.
    fn begin(&mut self) -> Result<Begin, Failed>
        ensures asked { IfOk result
            (λ begin. BeginsLife self.old.bound self.old.port begin (L.calls self.old.line) (L.calls self.new.line)) }
        ensures link { L.link self.new.line ≡ L.link self.old.line }
    {
        self.bind()?;
        let moments = Moments::begin(&mut self.line)?;
        let at = moments.begun();
        self.moments = Some(moments);
        self.salts = Salts::begun_by(at);
        Ok(Begin {
            at,
            salt: self.salts.next_word(),
            up: u64::MAX,
        })
    }

    fn moment(&mut self) -> Result<u64, Failed>
        ensures peer { self.new.peer ≡ self.old.peer }
        ensures watch { self.new.watch ≡ self.old.watch }
        ensures last { IfOk result (λ at. last_told self.new.moments ≡ Some at) }
        ensures later { IfOk result (λ at. IfSome (last_told self.old.moments) (λ last. last ≤ at)) }
        ensures kept { self.new.salts ≡ self.old.salts }
        ensures quiet { IfOk result
            (λ _. HearsNone self.old.peer (L.calls self.old.line) (L.calls self.new.line)) }
        ensures link { L.link self.new.line ≡ L.link self.old.line }
    {
        match &mut self.moments {
            Some(moments) => moments.now(&mut self.line),
            None => Err(Failed),
        }
    }

    /// Receives a datagram of the peer within so many milliseconds and says how long it is; `None` where none came.
    fn receive(&mut self, piece: u64, datagram: &mut [u8]) -> Result<Option<usize>, Failed>
        ensures room { IfOk result (λ got. IfSome got (λ len. len ≤ length datagram.new)) }
        ensures kept { (self.new.peer ≡ self.old.peer) × (self.new.salts ≡ self.old.salts) }
        ensures watch { (self.new.watch ≡ self.old.watch) × (self.new.moments ≡ self.old.moments) }
        ensures asked { Receives piece self.old.peer datagram.new (L.calls self.old.line)
            (L.calls self.new.line) result }
        ensures link { L.link self.new.line ≡ L.link self.old.line }
    {
        let Ok(()) = self.line.limit(piece) else {
            return Err(Failed);
        };
        match self.line.receive(datagram) {
            Ok((len, sender)) => Ok(from_peer(len, sender, self.peer)),
            Err(kind) => nothing_came(kind),
        }
    }

    /// The event of a datagram that comes within so many milliseconds.
    fn heard(&mut self, piece: u64, buf: &mut [u8]) -> Result<Option<Event>, Failed>
        ensures kept { (self.new.peer ≡ self.old.peer) × (self.new.salts ≡ self.old.salts) }
        ensures watch { (self.new.watch ≡ self.old.watch) × (self.new.moments ≡ self.old.moments) }
        ensures room { IfOk result (λ heard. IfSome heard (λ event. frame_len event ≤ length buf.new)) }
        ensures brings { IfOk result
            (λ heard. BringsYet self.old.peer ⊥ heard (length buf.old) buf.new (L.calls self.old.line)
            (L.calls self.new.line)) }
        ensures link { L.link self.new.line ≡ L.link self.old.line }
    {
        // one byte more than the longest, so that a longer one is told from it
        let mut datagram = [0; HEAD + FRAME_LIMIT + 1];
        match self.receive(piece, &mut datagram)? {
            Some(len) => Ok(Some(taken(&datagram[..len], buf))),
            None => Ok(None),
        }
    }

    /// Whether a child has ended.
    fn sees_end(&self) -> bool
        ensures { IfSome (W.ended self.now.watch) (λ is. result ≡ is) }
    {
        is_ended(seen_by(self.watch.look()))
    }

    /// Whether the moment at which a wait ends has come.
    fn has_come(&mut self, end: u64) -> Result<bool, Failed>
        ensures peer { self.new.peer ≡ self.old.peer }
        ensures watch { self.new.watch ≡ self.old.watch }
        ensures come { IfOk result (λ come. come ≡ has_come end self.new.moments) }
        ensures quiet { IfOk result
            (λ _. HearsNone self.old.peer (L.calls self.old.line) (L.calls self.new.line)) }
        ensures link { L.link self.new.line ≡ L.link self.old.line }
    {
        Ok(end <= self.moment()?)
    }

    /// Whether a wait is over in which nothing came: a child has ended, or its moment has come.
    fn has_ended(&mut self, end: u64) -> Result<bool, Failed>
        ensures peer { self.new.peer ≡ self.old.peer }
        ensures watch { self.new.watch ≡ self.old.watch }
        ensures over { IfOk result (λ over. IsOver (W.ended self.old.watch) end self.new.moments over) }
        ensures quiet { IfOk result
            (λ _. HearsNone self.old.peer (L.calls self.old.line) (L.calls self.new.line)) }
        ensures link { L.link self.new.line ≡ L.link self.old.line }
    {
        if self.sees_end() {
            return Ok(true);
        }
        self.has_come(end)
    }

    /// A piece of a wait, and what ends the wait: a datagram, the end of a child, or its moment.
    fn piece(&mut self, end: u64, buf: &mut [u8]) -> Result<Option<Event>, Failed>
        ensures room { IfOk result (λ heard. IfSome heard (λ event. frame_len event ≤ length buf.new)) }
        ensures peer { IfOk result (λ _. self.new.peer ≡ self.old.peer) }
        ensures watch { IfOk result (λ _. self.new.watch ≡ self.old.watch) }
        ensures goes_on { IfOk result (λ heard. heard ≡ None → has_come end self.new.moments ≡ false) }
        ensures brings { IfOk result
            (λ heard. BringsYet self.old.peer (IsDue (W.ended self.old.watch) end self.new.moments) heard
            (length buf.old) buf.new (L.calls self.old.line) (L.calls self.new.line)) }
        ensures link { L.link self.new.line ≡ L.link self.old.line }
    {
        let left = end.saturating_sub(self.moment()?);
        let piece = glancing(seen_by(self.watch.look()), piece_of(left));
        match self.heard(piece, buf)? {
            Some(event) => Ok(Some(event)),
            None => Ok(self.has_ended(end)?.then_some(Event::Quiet)),
        }
    }

    fn next_event(&mut self, until: Option<u64>, buf: &mut [u8]) -> Result<Event, Failed>
        ensures room { IfOk result (λ event. frame_len event ≤ length buf.new) }
        ensures peer { IfOk result (λ _. self.new.peer ≡ self.old.peer) }
        ensures brings { IfOk result
            (λ event. Brings self.old.peer (IsDueBy (W.ended self.old.watch) until self.new.moments)
            (record { event = event; room = length buf.old; buffer = buf.new }) (L.calls self.old.line)
            (L.calls self.new.line)) }
        ensures link { L.link self.new.line ≡ L.link self.old.line }
    {
        let end = wait_end(until, self.moment()?);
        'pieces: for _ in 0..u64::MAX {
            if let Some(event) = self.piece(end, buf)? {
                return Ok(event);
            }
        }
        // each piece has a millisecond at least, so that no wait comes here
        Err(Failed)
    }

    fn wait(&mut self, until: Option<u64>, buf: &mut [u8]) -> Result<Wake, Failed>
        ensures room { IfOk result (λ wake. frame_len wake.event ≤ length buf.new) }
        ensures peer { IfOk result (λ _. self.new.peer ≡ self.old.peer) }
        ensures brings { IfOk result
            (λ wake. Brings self.old.peer (IsAwaited (W.ended self.old.watch) until wake.at)
            (record { event = wake.event; room = length buf.old; buffer = buf.new }) (L.calls self.old.line)
            (L.calls self.new.line)) }
        ensures link { L.link self.new.line ≡ L.link self.old.line }
    {
        let event = self.next_event(until, buf)?;
        let at = self.moment()?;
        Ok(Wake {
            at,
            salt: self.salts.next_word(),
            event,
        })
    }

    /// Sends the datagram of a frame to the peer.
    fn send(&mut self, iface: IfIndex, frame: &[u8]) -> Result<(), DeviceAnswer>
        ensures peer { self.new.peer ≡ self.old.peer }
        ensures asked { Sends iface.number frame.now self.old.peer (L.calls self.old.line) (L.calls self.new.line)
            result }
        ensures link { L.link self.new.line ≡ L.link self.old.line }
    {
        let Ok(iface) = u8::try_from(iface.number) else {
            return Err(DeviceAnswer::Failed);
        };
        let Ok(datagram) = frame_datagram(self.alloc, iface, frame) else {
            return Err(DeviceAnswer::NoMemory);
        };
        match self.line.send(&datagram, self.peer) {
            Ok(_) => Ok(()),
            Err(_) => Err(DeviceAnswer::Failed),
        }
    }

    /// Notes a call of the link.
    fn note(&mut self, call: LinkNote<'_>)
        requires { RestsOn self.old.peer call (L.calls self.old.line) }
        ensures told { L.calls self.new.line ≡ L.calls self.old.line }
        ensures link { L.link self.new.line ≡ option_map (noted call.entry) (L.link self.old.line) }
    {
        self.line.note(self.peer, call);
    }
}

/// Interfaces whose frames are datagrams on the loopback address. What comes isn't told.
///
/// A datagram from the peer's port is one event; any other is passed over. The end of a child ends a wait. A send
/// reaches the peer, or nobody.
#[derive(Drop)]
pub struct LoopLink<L: Loopback + Drop, W: Watch + Drop> {
    wire: Wire<L, W>,
    faults: Faults,
    send_faults: Faults,
    begins: u64,
}

impl<L: Loopback + Drop, W: Watch + Drop> LoopLink<L, W> {
    /// A link between two ports of 127.0.0.1, its own and the peer's. A word that is no port stands for 0. Nothing is
    /// opened yet.
    pub fn new(alloc: Global, line: L, watch: W, port: &str, peer: &str) -> LoopLink<L, W>
        ensures port { result.wire.port ≡ port_named port.now }
        ensures peer { result.wire.peer ≡ port_named peer.now }
        ensures line { result.wire.line ≡ line }
        ensures watch { result.wire.watch ≡ watch }
        ensures unbound { result.wire.bound ≡ false }
        ensures faults { (result.faults.count ≡ 0) × (result.send_faults.count ≡ 0) }
        ensures begins { result.begins ≡ 0 }
    {
        LoopLink {
            wire: Wire {
                alloc,
                line,
                watch,
                port: port_of(port),
                peer: port_of(peer),
                bound: false,
                moments: None,
                salts: Salts::begun_by(0),
            },
            faults: Faults::none(),
            send_faults: Faults::none(),
            begins: 0,
        }
    }

    /// Binds the link's port, where that wasn't done before.
    pub fn bind(&mut self) -> Result<(), Failed>
        ensures bound { self.old.faults.count < 2 ^ 64 - 1 → IfOk result (λ _. self.new.wire.bound ≡ true) }
        ensures ports { (self.new.wire.port ≡ self.old.wire.port) × (self.new.wire.peer ≡ self.old.wire.peer) }
        ensures cause { HasCause self.old.faults.count self.new.faults.count result }
        ensures no_send { self.new.send_faults ≡ self.old.send_faults }
        ensures no_begin { self.new.begins ≡ self.old.begins }
        ensures asked { self.old.faults.count < 2 ^ 64 - 1
            → Binds self.old.wire.bound self.old.wire.port (L.calls self.old.wire.line)
            (L.calls self.new.wire.line) result }
    {
        match self.wire.bind() {
            Ok(()) => Ok(()),
            Err(Failed) => self.faults.failed(()),
        }
    }
}

#[tactic(auto, using(system_calls::proofs::Causing::counted_cause))]
impl<L: Loopback + Drop, W: Watch + Drop> Link for LoopLink<L, W> {
    ghost faults = { λ link. link.faults.count };

    ghost send_faults = { λ link. link.send_faults.count };

    ghost begins = { λ link. link.begins };

    ghost told = { λ link. None };

    ghost calls = { λ link. L.link link.wire.line };

    ghost failing_waits = { λ link. None };

    ghost failing_sends = { λ link. None };

    fn begin(&mut self) -> Result<Begin, Failed>
        ensures cause { HasCause self.old.faults.count self.new.faults.count result }
        ensures no_send { self.new.send_faults ≡ self.old.send_faults }
        ensures counted { self.new.begins ≡ count_after self.old.begins }
        ensures calls { L.link self.new.wire.line ≡ L.link self.old.wire.line }
        ensures asked { self.old.faults.count < 2 ^ 64 - 1
            → IfOk result
            (λ begin. BeginsLife self.old.wire.bound self.old.wire.port begin (L.calls self.old.wire.line)
            (L.calls self.new.wire.line)) }
    {
        self.begins = self.begins.saturating_add(1);
        match self.wire.begin() {
            Ok(begin) => Ok(begin),
            Err(Failed) => self.faults.failed(Begin {
                at: 0,
                salt: 0,
                up: 0,
            }),
        }
    }

    fn wait(&mut self, until: Option<u64>, buf: &mut [u8]) -> Result<Wake, DeviceAnswer>
        ensures cause { HasDeviceCause self.old.faults.count self.new.faults.count result }
        ensures no_send { self.new.send_faults ≡ self.old.send_faults }
        ensures no_begin { self.new.begins ≡ self.old.begins }
        ensures room { IfOk result (λ wake. frame_len wake.event ≤ length buf.new) }
        ensures calls { AddsWait until (L.link self.old.wire.line) (L.link self.new.wire.line) buf.new result }
        ensures brings { IfOk result
            (λ wake. Brings self.old.wire.peer (IsAwaited (W.ended self.old.wire.watch) until wake.at)
            (record { event = wake.event; room = length buf.old; buffer = buf.new }) (L.calls self.old.wire.line)
            (L.calls self.new.wire.line)) }
    {
        match self.wire.wait(until, buf) {
            Ok(wake) => {
                self.wire.note(LinkNote::Woke(until, wake, buf));
                Ok(wake)
            }
            Err(Failed) => {
                let answer = self.faults.counted(DeviceAnswer::Failed);
                if let DeviceAnswer::Failed = answer {
                    self.wire.note(LinkNote::NotWoken(until));
                }
                Err(answer)
            }
        }
    }

    fn send(&mut self, iface: IfIndex, frame: &[u8]) -> Result<(), DeviceAnswer>
        ensures cause { HasDeviceCause self.old.send_faults.count self.new.send_faults.count result }
        ensures no_wait { (self.new.faults ≡ self.old.faults) × (self.new.begins ≡ self.old.begins) }
        ensures calls { AddsOffer iface.number frame.now (L.link self.old.wire.line) (L.link self.new.wire.line)
            result }
        ensures asked { Sends iface.number frame.now self.old.wire.peer (L.calls self.old.wire.line)
            (L.calls self.new.wire.line) result }
    {
        self.send_faults.room()?;
        match self.wire.send(iface, frame) {
            Ok(()) => {
                self.wire.note(LinkNote::Sent(iface.number, frame));
                Ok(())
            }
            Err(DeviceAnswer::Failed) => {
                let answer = self.send_faults.counted(DeviceAnswer::Failed);
                self.wire.note(LinkNote::Unsent(iface.number, frame));
                Err(answer)
            }
            Err(DeviceAnswer::NoMemory) => Err(DeviceAnswer::NoMemory),
        }
    }
}
