//! What this machine keeps between calls: the open file, the names of a folder, a child, a socket.

ghost use Rattle.std.specs.Prelude.{◌≡◌, None, Some, Ok, IfOk, IfErr, IsErrAnd, OnOk};
ghost use Rattle.std.specs.IoError.{error_kind};
ghost use Rattle.system_calls.specs.Asking.{failure_of};
ghost use Rattle.system_calls.specs.DiskCalls.{NamesEntry};

use std::alloc::Global;
use std::cell::Cell;
use std::fs::{DirEntry, ReadDir};
use std::io;
use std::io::ErrorKind;
use std::net::{Net, UdpSocket};
use std::process::{Child, OpenProcess, Processes};
use std::rc::Rc;
use std::rt::{Clock, Files};
use world::NoMemory;

/// What a call gives that wants an open file, a folder, a child or a socket, where there is none.
pub(crate) const NOT_OPEN: ErrorKind = ErrorKind::InvalidInput;

/// The answer of a call of the system, with the kind of its error alone.
pub(crate) fn answer<T: Drop>(answer: io::Result<T>) -> Result<T, ErrorKind>
    ensures ok { IfOk result (λ value. answer ≡ Ok value) }
    ensures err { IfErr result (λ kind. IsErrAnd answer (λ error. error_kind error ≡ kind)) }
{
    match answer {
        Ok(value) => Ok(value),
        Err(error) => Err(error.kind()),
    }
}

/// The files of this machine.
#[derive(Drop)]
pub struct SystemDisk<R: Files + AllocGlobal + Clone + Drop> {
    pub(crate) rt: R,
    pub(crate) file: Option<R::File>,
    pub(crate) names: Option<ReadDir<R, Global>>,
}

impl<R: Files + AllocGlobal + Clone + Drop> SystemDisk<R> {
    /// The files of this machine, of which none is open.
    pub fn new(rt: R) -> SystemDisk<R>
        ensures file { result.file ≡ None }
        ensures names { result.names ≡ None }
    {
        SystemDisk {
            rt,
            file: None,
            names: None,
        }
    }
}

/// The name of an entry of a folder; `None` where there is no further entry.
pub(crate) fn named<R: Files + AllocGlobal + Clone + Drop>(
    alloc: Global,
    entry: Option<io::Result<DirEntry<R, Global>>>,
) -> Result<Option<String>, ErrorKind>
    ensures { NamesEntry entry result }
{
    let Some(entry) = entry else {
        return Ok(None);
    };
    match String::from_str(alloc, answer(entry)?.file_name()) {
        Ok(name) => Ok(Some(name)),
        Err(_) => Err(ErrorKind::OutOfMemory),
    }
}

/// The place of a child. Those who watch it share the place.
pub(crate) type Place<P> = Rc<Cell<Option<Child<P>>>>;

/// The child of this process that runs a script.
#[derive(Drop)]
pub struct SystemChildren<R: Processes + AllocGlobal + Drop> {
    pub(crate) rt: R,
    pub(crate) place: Place<R::Started>,
}

impl<R: Processes + AllocGlobal + Drop> SystemChildren<R> {
    /// The place of a child, where none runs yet.
    pub fn new(rt: R) -> Result<SystemChildren<R>, NoMemory> {
        match Rc::new(rt.alloc(), Cell::new(None)) {
            Ok(place) => Ok(SystemChildren { rt, place }),
            Err(_) => Err(NoMemory),
        }
    }

    /// Who watches the child that runs, and each later one.
    pub fn watch(&self) -> Result<ChildWatch<R::Started>, NoMemory> {
        match self.place.clone() {
            Ok(place) => Ok(ChildWatch { place }),
            Err(_) => Err(NoMemory),
        }
    }
}

/// Who watches the child that hooks run.
#[derive(Drop)]
pub struct ChildWatch<P: OpenProcess + Drop> {
    pub(crate) place: Place<P>,
}

/// The socket of the loopback address, and the clocks of this machine.
#[derive(Drop)]
pub struct SystemLoopback<R: Net + Clock + Drop> {
    pub(crate) rt: R,
    pub(crate) socket: Option<UdpSocket>,
}

impl<R: Net + Clock + Drop> SystemLoopback<R> {
    /// A socket that has no port yet.
    pub fn new(rt: R) -> SystemLoopback<R>
        ensures { result.socket ≡ None }
    {
        SystemLoopback { rt, socket: None }
    }
}
