//! The devices of `live`, made of its words.
ghost use Rattle.std.specs.Prelude.{◌≡◌, false, IfOk, map};
ghost use Rattle.std.specs.String.{string_bytes};
ghost use Rattle.edges.specs.Ports.{port_named};
ghost use Rattle.dhcpcd_prog.specs.Named.{word_at};

use daemon::Devices;
use edges::{
    ChildHooks, ChildWatch, CommandHost, FolderStore, LoopLink, SystemChildren, SystemDisk,
    SystemLoopback,
};
use std::process::SystemProcess;
use world::NoMemory;

/// The outside on this machine.
pub type Machine<'a> = Devices<
    LoopLink<SystemLoopback<&'a HostRuntime>, ChildWatch<SystemProcess>>,
    FolderStore<SystemDisk<&'a HostRuntime>>,
    CommandHost<SystemChildren<&'a HostRuntime>>,
    ChildHooks<SystemChildren<&'a HostRuntime>>,
>;

/// A word by its place; where there is none it stands for nothing.
fn word(words: &[String], place: usize) -> &str
    ensures { result.now ≡ word_at place (map string_bytes words.now) }
{
    match words.get(place) {
        Some(word) => word.as_str(),
        None => "",
    }
}

/// The devices that the words name. Nothing is opened yet, and words that name none make devices that are never asked.
pub fn devices<'a>(rt: &'a HostRuntime, words: &[String]) -> Result<Machine<'a>, NoMemory>
    ensures port { IfOk result
        (λ machine. machine.link.wire.port ≡ port_named (word_at 1 (map string_bytes words.now))) }
    ensures peer { IfOk result
        (λ machine. machine.link.wire.peer ≡ port_named (word_at 2 (map string_bytes words.now))) }
    ensures folder { IfOk result (λ machine. string_bytes machine.store.dir ≡ word_at 3 (map string_bytes words.now)) }
    ensures host { IfOk result (λ machine. string_bytes machine.host.script ≡ word_at 4 (map string_bytes words.now)) }
    ensures hooks { IfOk result
        (λ machine. string_bytes machine.hooks.script ≡ word_at 4 (map string_bytes words.now)) }
    ensures child { IfOk result (λ machine. machine.hooks.running ≡ false) }
{
    let script = word(words, 4);
    let children = SystemChildren::new(rt)?;
    let watch = children.watch()?;
    let hooks = ChildHooks::new(rt.alloc(), children, script)?;
    Ok(Devices {
        link: LoopLink::new(
            rt.alloc(),
            SystemLoopback::new(rt),
            watch,
            word(words, 1),
            word(words, 2),
        ),
        store: FolderStore::new(rt.alloc(), SystemDisk::new(rt), word(words, 3))?,
        host: CommandHost::new(rt.alloc(), SystemChildren::new(rt)?, script)?,
        hooks,
    })
}
