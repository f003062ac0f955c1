//! A loopback socket and its clock in memory, for tests: a DHCPv4 server answers on it, strangers send to it as well,
//! and after a while it brings a stop.

ghost use Rattle.std.specs.Prelude.{◌<◌, ◌^◌};

use crate::failing::Failing;
use edges::{LinkNote, Loopback};
use lab_peer::{Peer, Pool};
use net_types::Ip4;
use std::alloc::{AllocError, Global};
use std::io;
use std::io::ErrorKind;
use std::net::{Ipv4Addr, SocketAddr, SocketAddrV4};
use std::rt::Clock;
use std::time::{Duration, Instant, SystemTime};
use world::NoMemory;

/// When the life begins, in seconds since 1970.
const BEGUN: u64 = 1_700_000_000;

/// The last moment that a server is told, in milliseconds since 1970.
const LATEST: u64 = 999_999_999_999_999;

/// After how many milliseconds it's stopped.
const STOPPED: u64 = 30_000;

/// The first byte of a frame's datagram.
const FRAME: u8 = 1;

/// The datagram of a stop.
const STOP: [u8; 2] = [6, 0];

/// The server's pool is one address, 10.0.0.50.
const POOL: Pool = Pool {
    low: Ip4 {
        number: 0x0a00_0032,
    },
    high: Ip4 {
        number: 0x0a00_0032,
    },
    lease: 3600,
};

/// A clock at so many milliseconds after the life's beginning.
#[derive(Clone, Copy)]
struct MemClock {
    millis: u64,
}

impl MemClock {
    /// The moment that it shows, in milliseconds since 1970.
    fn at(&self) -> u64
        ensures { result < 10 ^ 15 }
    {
        (BEGUN * 1000).saturating_add(self.millis).min(LATEST)
    }
}

impl Clock for MemClock {
    fn monotonic(&self) -> io::Result<Duration> {
        Ok(Duration::from_millis(self.millis))
    }

    fn since_1970(&self) -> io::Result<Duration> {
        Ok(Duration::from_secs(BEGUN))
    }
}

#[derive(Drop)]
struct Datagram {
    bytes: Vec<u8>,
    sender: SocketAddr,
}

/// A socket in memory. Its peer is a server of DHCPv4, which answers at once, and stops the life after a while. Before
/// each of its datagrams come two stops of strangers: of another port, and of another host.
#[derive(Drop)]
pub(crate) struct MemLoopback {
    alloc: Global,
    failing: Failing,
    clock: MemClock,
    limit: u64,
    port: u16,
    peer: Peer,
    /// What comes, the first one last.
    coming: Vec<Datagram>,
    stopped: bool,
}

/// A port of 127.0.0.1.
fn here(port: u16) -> SocketAddr {
    SocketAddr::V4(SocketAddrV4::new(Ipv4Addr::LOCALHOST, port))
}

/// That port of another host.
fn elsewhere(port: u16) -> SocketAddr {
    SocketAddr::V4(SocketAddrV4::new(Ipv4Addr::new(127, 0, 0, 2), port))
}

impl MemLoopback {
    /// A socket whose peer has this port.
    pub(crate) fn new(alloc: Global, failing: Failing, port: u16) -> MemLoopback {
        MemLoopback {
            alloc,
            failing,
            clock: MemClock { millis: 0 },
            limit: 0,
            port,
            peer: Peer::open(alloc, POOL),
            coming: Vec::new(alloc),
            stopped: false,
        }
    }

    /// The peer's next datagram, behind those of strangers.
    fn queue(&mut self, bytes: Vec<u8>) -> Result<(), AllocError> {
        let port = self.port;
        self.coming.push(Datagram {
            bytes,
            sender: here(port),
        })?;
        for sender in [elsewhere(port), here(port.wrapping_add(1))] {
            self.coming.push(Datagram {
                bytes: STOP.to_vec(self.alloc)?,
                sender,
            })?;
        }
        Ok(())
    }

    /// What the peer makes of a frame.
    fn answer(&mut self, iface: u8, frame: &[u8]) -> Result<(), NoMemory> {
        let Some(answer) = self.peer.hear(self.alloc, frame, self.clock.at())? else {
            return Ok(());
        };
        let mut bytes = vec![in self.alloc; FRAME, iface]?;
        bytes.extend_from_slice(&answer)?;
        self.queue(bytes)?;
        Ok(())
    }

    /// A wait is over, and nothing came; what the peer sends then comes in the next one.
    fn pass(&mut self) -> Result<(), AllocError> {
        self.clock.millis = self.clock.millis.saturating_add(self.limit);
        if !self.stopped && self.clock.millis >= STOPPED {
            self.stopped = true;
            self.queue(STOP.to_vec(self.alloc)?)?;
        }
        Ok(())
    }
}

impl Loopback for MemLoopback {
    ghost use Rattle.std.specs.Prelude.{None};

    ghost calls = { λ line. None };

    ghost link = { λ line. None };

    fn bind(&mut self, _port: u16) -> Result<(), ErrorKind> {
        self.failing.call()
    }

    fn limit(&mut self, millis: u64) -> Result<(), ErrorKind> {
        self.failing.call()?;
        self.limit = millis;
        Ok(())
    }

    fn receive(&mut self, buf: &mut [u8]) -> Result<(usize, SocketAddr), ErrorKind> {
        self.failing.call()?;
        let Some(datagram) = self.coming.pop() else {
            return Err(match self.pass() {
                Ok(()) => ErrorKind::WouldBlock,
                Err(_) => ErrorKind::OutOfMemory,
            });
        };
        let len = datagram.bytes.len().min(buf.len());
        buf[..len].copy_from_slice(&datagram.bytes[..len]);
        Ok((len, datagram.sender))
    }

    fn send(&mut self, datagram: &[u8], port: u16) -> Result<usize, ErrorKind> {
        self.failing.call()?;
        if let [FRAME, iface, frame @ ..] = datagram
            && port == self.port
            && self.answer(*iface, frame).is_err()
        {
            return Err(ErrorKind::OutOfMemory);
        }
        Ok(datagram.len())
    }

    fn wall(&mut self) -> Result<SystemTime, ErrorKind> {
        self.failing.call()?;
        match SystemTime::now(&self.clock) {
            Ok(now) => Ok(now),
            Err(error) => Err(error.kind()),
        }
    }

    fn steady(&mut self) -> Result<Instant, ErrorKind> {
        self.failing.call()?;
        match Instant::now(&self.clock) {
            Ok(now) => Ok(now),
            Err(error) => Err(error.kind()),
        }
    }

    fn note(&mut self, _peer: u16, _call: LinkNote<'_>) {}
}
