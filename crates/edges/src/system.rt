//! The calls of the system, each as it is: what is trusted of this crate. What they do is told by none.

ghost use Rattle.std.specs.Prelude.{None};

use crate::machine::{
    ChildWatch, NOT_OPEN, SystemChildren, SystemDisk, SystemLoopback, answer, named,
};
use child_devices::{Children, HookNote, HostNote};
use loop_link::{LinkNote, Loopback, Watch};
use std::fs;
use std::fs::OpenFile;
use std::io::{ErrorKind, Read, Write};
use std::net::{Ipv4Addr, Net, SocketAddr, UdpSocket};
use std::process::{Command, ExitStatus, OpenProcess, Output, Processes, Stdio};
use std::rt::{Clock, Files};
use std::time::{Duration, Instant, SystemTime};
use system_calls::{Disk, Note};

impl<R: Files + AllocGlobal + Clone + Drop> Disk for SystemDisk<R> {
    ghost calls = { λ disk. None };

    ghost held = { λ disk dir. None };

    fn open(&mut self, path: &str) -> Result<(), ErrorKind> {
        self.file = Some(answer(fs::open(&self.rt, path))?);
        Ok(())
    }

    fn make(&mut self, path: &str) -> Result<(), ErrorKind> {
        self.file = Some(answer(fs::create(&self.rt, path))?);
        Ok(())
    }

    fn read(&mut self, buf: &mut [u8]) -> Result<usize, ErrorKind> {
        answer(self.file.as_mut().ok_or(NOT_OPEN)?.read(buf))
    }

    fn write(&mut self, bytes: &[u8]) -> Result<usize, ErrorKind> {
        answer(self.file.as_mut().ok_or(NOT_OPEN)?.write(bytes))
    }

    fn sync(&mut self) -> Result<(), ErrorKind> {
        answer(self.file.as_ref().ok_or(NOT_OPEN)?.sync_all())
    }

    fn close(&mut self) {
        self.file = None;
    }

    fn rename(&mut self, from: &str, to: &str) -> Result<(), ErrorKind> {
        answer(fs::rename(&self.rt, from, to))
    }

    fn remove(&mut self, path: &str) -> Result<(), ErrorKind> {
        answer(fs::remove_file(&self.rt, path))
    }

    fn list(&mut self, path: &str) -> Result<(), ErrorKind> {
        self.names = Some(answer(fs::read_dir(&self.rt, path))?);
        Ok(())
    }

    fn next_name(&mut self) -> Result<Option<String>, ErrorKind> {
        named(self.rt.alloc(), self.names.as_mut().ok_or(NOT_OPEN)?.next())
    }

    fn note(&mut self, _dir: &str, _call: Note<'_>) {}
}

impl<R: Processes + AllocGlobal + Drop> Children for SystemChildren<R> {
    ghost calls = { λ children. None };

    ghost tables = { λ children script. None };

    ghost hooks = { λ children. None };

    fn start(&mut self, call: &mut Command) -> Result<(), ErrorKind> {
        let call = call.stdin(Stdio::null()).stdout(Stdio::null());
        self.place.set(Some(answer(call.spawn(&self.rt))?));
        Ok(())
    }

    fn ask(&mut self) -> Result<Option<ExitStatus>, ErrorKind> {
        let mut child = self.place.take().ok_or(NOT_OPEN)?;
        let asked = answer(child.try_wait());
        if !matches!(asked, Ok(Some(_))) {
            self.place.set(Some(child));
        }
        asked
    }

    fn kill(&mut self) -> Result<(), ErrorKind> {
        let mut child = self.place.take().ok_or(NOT_OPEN)?;
        let killed = answer(child.kill());
        self.place.set(Some(child));
        killed
    }

    fn wait(&mut self) -> Result<ExitStatus, ErrorKind> {
        answer(self.place.take().ok_or(NOT_OPEN)?.wait())
    }

    fn print(&mut self, call: &mut Command) -> Result<Output, ErrorKind> {
        answer(call.stderr(Stdio::inherit()).output(&self.rt))
    }

    fn note_host(&mut self, _script: &str, _call: HostNote) {}

    fn note_hook(&mut self, _call: HookNote<'_>) {}
}

impl<P: OpenProcess + Drop> Watch for ChildWatch<P> {
    ghost ended = { λ watch. None };

    fn look(&self) -> Option<Result<Option<ExitStatus>, ErrorKind>> {
        let mut child = self.place.take()?;
        let asked = answer(child.try_wait());
        self.place.set(Some(child));
        Some(asked)
    }
}

impl<R: Net + Clock + Drop> Loopback for SystemLoopback<R> {
    ghost calls = { λ line. None };

    ghost link = { λ line. None };

    fn bind(&mut self, port: u16) -> Result<(), ErrorKind> {
        self.socket = Some(answer(UdpSocket::bind(&self.rt, (Ipv4Addr::LOCALHOST, port)))?);
        Ok(())
    }

    fn limit(&mut self, millis: u64) -> Result<(), ErrorKind> {
        let socket = self.socket.as_ref().ok_or(NOT_OPEN)?;
        answer(socket.set_read_timeout(Some(Duration::from_millis(millis))))
    }

    fn receive(&mut self, buf: &mut [u8]) -> Result<(usize, SocketAddr), ErrorKind> {
        answer(self.socket.as_ref().ok_or(NOT_OPEN)?.recv_from(buf))
    }

    fn send(&mut self, datagram: &[u8], port: u16) -> Result<usize, ErrorKind> {
        let socket = self.socket.as_ref().ok_or(NOT_OPEN)?;
        answer(socket.send_to(datagram, (Ipv4Addr::LOCALHOST, port)))
    }

    fn wall(&mut self) -> Result<SystemTime, ErrorKind> {
        answer(SystemTime::now(&self.rt))
    }

    fn steady(&mut self) -> Result<Instant, ErrorKind> {
        answer(Instant::now(&self.rt))
    }

    fn note(&mut self, _peer: u16, _call: LinkNote<'_>) {}
}
