//! A test of what `lease_file` does with files, over a store whose calls all succeed. The program's own loop makes the
//! same calls one by one, so that nothing else runs these.

ghost use Rattle.std.specs.Prelude.{None};

use lease_file::{clear_asides, read_files, remove, save};
use std::alloc::Global;
use std::test::Fail;
use world::{DeviceAnswer, Store};

/// A store with an aside and no other file.
#[derive(Drop)]
struct OneAside {
    alloc: Global,
}

impl Store for OneAside {
    ghost faults = { λ _. 0 };

    ghost told = { λ _. None };

    ghost failing = { λ _. None };

    fn list_asides(&mut self, names: &mut Vec<String>) -> Result<(), DeviceAnswer> {
        let Ok(name) = String::from_str(self.alloc, "resolv.conf.new") else {
            return Err(DeviceAnswer::NoMemory);
        };
        match names.push(name) {
            Ok(()) => Ok(()),
            Err(_) => Err(DeviceAnswer::NoMemory),
        }
    }

    fn read_file(&mut self, _name: &str, _into: &mut Vec<u8>) -> Result<bool, DeviceAnswer> {
        Ok(false)
    }

    fn write_aside(&mut self, _name: &str, _bytes: &[u8]) -> Result<(), DeviceAnswer> {
        Ok(())
    }

    fn sync_aside(&mut self, _name: &str) -> Result<(), DeviceAnswer> {
        Ok(())
    }

    fn rename_aside(&mut self, _name: &str) -> Result<(), DeviceAnswer> {
        Ok(())
    }

    fn remove(&mut self, _name: &str) -> Result<(), DeviceAnswer> {
        Ok(())
    }

    fn settle(&mut self) -> Result<(), DeviceAnswer> {
        Ok(())
    }
}

#[test]
fn each_call_succeeds(rt: HostRuntime) -> Result<(), Fail> {
    let mut store = OneAside { alloc: rt.alloc() };
    let Ok(clearing) = clear_asides(rt.alloc(), &mut store) else {
        return Err("not cleared".into());
    };
    assert_eq!(rt; clearing.removed.len(), 1);
    let gots = read_files(rt.alloc(), &mut store, &["resolv.conf"])?;
    assert_eq!(rt; gots.len(), 1);
    assert_eq!(rt;
        save(&mut store, "resolv.conf", b"nameserver 10.0.0.1\n"),
        Ok(())
    );
    assert_eq!(rt; remove(&mut store, "resolv.conf"), Ok(()));
    Ok(())
}
