//! `live` over a machine in memory.

ghost use Rattle.std.specs.Prelude.{◌≡◌, false, IfOk};

use crate::cases::Case;
use crate::child::{MemChildren, NoWatch};
use crate::folder::MemDisk;
use crate::wire::MemLoopback;
use daemon::Devices;
use dhcpcd::{Status, run};
use edges::{ChildHooks, CommandHost, FolderStore, LoopLink};
use std::alloc::{AllocError, Global};
use world::{NoMemory, Store};
use world_mem::{MemSink, MemSource};

/// The words of the program.
const LIVE: [&str; 6] = [
    "live",
    "4000",
    "4001",
    "folder",
    "script",
    "eth0=02:00:00:00:00:01",
];

const CONF: &[u8] = b"ipv4only\nnodelay\nnoarp\n";

type Machine = Devices<
    LoopLink<MemLoopback, NoWatch>,
    FolderStore<MemDisk>,
    CommandHost<MemChildren>,
    ChildHooks<MemChildren>,
>;

/// Devices over a machine of which these calls fail.
fn machine(alloc: Global, case: &Case) -> Result<Machine, NoMemory>
    ensures { IfOk result (λ machine. machine.hooks.running ≡ false) }
{
    let disk = MemDisk::new(alloc, "folder", case.disk);
    let line = MemLoopback::new(alloc, case.line, 4001);
    let host = MemChildren::new(alloc, case.host);
    let hooks = MemChildren::new(alloc, case.hooks);
    Ok(Devices {
        link: LoopLink::new(alloc, line, NoWatch, "4000", "4001"),
        store: FolderStore::new(alloc, disk, "folder")?,
        host: CommandHost::new(alloc, host, "script")?,
        hooks: ChildHooks::new(alloc, hooks, "script")?,
    })
}

fn words(alloc: Global) -> Result<Vec<String>, AllocError> {
    let mut words = Vec::new(alloc);
    for word in LIVE {
        words.push(String::from_str(alloc, word)?)?;
    }
    Ok(words)
}

/// The file of the lease.
const LEASE: &str = "eth0.lease4";

/// How a life ended.
#[derive(Clone, Copy)]
pub(crate) struct Ended {
    pub(crate) status: Status,
    /// How many bytes the file of the lease has then; `None` where there is none, or it can't be read.
    pub(crate) kept: Option<usize>,
}

/// How many bytes a file has.
fn size_of(alloc: Global, store: &mut FolderStore<MemDisk>, name: &str) -> Option<usize> {
    let mut bytes = Vec::new(alloc);
    match store.read_file(name, &mut bytes) {
        Ok(true) => Some(bytes.len()),
        _ => None,
    }
}

/// Lives one life over a machine of which these calls fail; its transcript is appended.
pub(crate) fn live(alloc: Global, case: &Case, out: &mut MemSink) -> Result<Ended, NoMemory> {
    let words = words(alloc)?;
    let mut input = MemSource::new(alloc, CONF.to_vec(alloc)?, Vec::new(alloc));
    let mut machine = machine(alloc, case)?;
    let status = run(alloc, &words, &mut input, out, &mut machine, case.turns);
    let kept = size_of(alloc, &mut machine.store, LEASE);
    Ok(Ended { status, kept })
}
