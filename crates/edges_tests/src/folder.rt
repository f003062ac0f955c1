//! A folder of files in memory, which stands for the disk in tests: it takes and gives a few bytes at a time, and
//! chosen calls of it fail.

use crate::failing::Failing;
use edges::{Disk, Note};
use std::alloc::{AllocError, Global};
use std::io::ErrorKind;

/// How many bytes a read gives at most.
const READ: usize = 7;

/// How many bytes a write takes at most.
const WRITE: usize = 5;

#[derive(Drop)]
struct File {
    path: String,
    bytes: Vec<u8>,
}

/// The files of a folder in memory.
#[derive(Drop)]
pub(crate) struct MemDisk {
    alloc: Global,
    folder: &'static str,
    failing: Failing,
    files: Vec<File>,
    /// The place of the open file, where one is open.
    open: Option<usize>,
    /// How many of its bytes were read.
    read: usize,
    /// How many names were listed.
    listed: usize,
}

/// What memory wanted is to the one who calls the system.
fn kept<T: Drop>(kept: Result<T, AllocError>) -> Result<T, ErrorKind> {
    match kept {
        Ok(value) => Ok(value),
        Err(_) => Err(ErrorKind::OutOfMemory),
    }
}

impl MemDisk {
    pub(crate) fn new(alloc: Global, folder: &'static str, failing: Failing) -> MemDisk {
        MemDisk {
            alloc,
            folder,
            failing,
            files: Vec::new(alloc),
            open: None,
            read: 0,
            listed: 0,
        }
    }

    fn place_of(&self, path: &str) -> Result<usize, ErrorKind> {
        for (place, file) in self.files.iter().enumerate() {
            if file.path.as_str() == path {
                return Ok(place);
            }
        }
        Err(ErrorKind::NotFound)
    }

    /// The place of a file, which is made where there is none.
    fn place_for(&mut self, path: &str) -> Result<usize, ErrorKind> {
        if let Ok(place) = self.place_of(path) {
            return Ok(place);
        }
        let place = self.files.len();
        let file = File {
            path: kept(String::from_str(self.alloc, path))?,
            bytes: Vec::new(self.alloc),
        };
        match self.files.push(file) {
            Ok(()) => Ok(place),
            Err(_) => Err(ErrorKind::OutOfMemory),
        }
    }

    fn drop_file(&mut self, path: &str) {
        self.files.retain(|file| file.path.as_str() != path);
    }
}

impl Disk for MemDisk {
    ghost use Rattle.std.specs.Prelude.{None};

    ghost calls = { λ disk. None };

    ghost held = { λ disk dir. None };

    fn open(&mut self, path: &str) -> Result<(), ErrorKind> {
        self.failing.call()?;
        self.read = 0;
        self.open = if path == self.folder {
            None
        } else {
            Some(self.place_of(path)?)
        };
        Ok(())
    }

    fn make(&mut self, path: &str) -> Result<(), ErrorKind> {
        self.failing.call()?;
        let place = self.place_for(path)?;
        self.open = Some(place);
        if let Some(file) = self.files.get_mut(place) {
            file.bytes.clear();
        }
        Ok(())
    }

    fn read(&mut self, buf: &mut [u8]) -> Result<usize, ErrorKind> {
        self.failing.call()?;
        let Some(file) = self.files.get(self.open.ok_or(ErrorKind::InvalidInput)?) else {
            return Err(ErrorKind::InvalidInput);
        };
        let rest = &file.bytes[self.read.min(file.bytes.len())..];
        let len = rest.len().min(buf.len()).min(READ);
        buf[..len].copy_from_slice(&rest[..len]);
        self.read = self.read.saturating_add(len);
        Ok(len)
    }

    fn write(&mut self, bytes: &[u8]) -> Result<usize, ErrorKind> {
        self.failing.call()?;
        let Some(file) = self
            .files
            .get_mut(self.open.ok_or(ErrorKind::InvalidInput)?)
        else {
            return Err(ErrorKind::InvalidInput);
        };
        let len = bytes.len().min(WRITE);
        kept(file.bytes.extend_from_slice(&bytes[..len]))?;
        Ok(len)
    }

    fn sync(&mut self) -> Result<(), ErrorKind> {
        self.failing.call()
    }

    fn close(&mut self) {
        self.open = None;
    }

    fn rename(&mut self, from: &str, to: &str) -> Result<(), ErrorKind> {
        self.failing.call()?;
        self.place_of(from)?;
        let name = kept(String::from_str(self.alloc, to))?;
        self.drop_file(to);
        let place = self.place_of(from)?;
        if let Some(file) = self.files.get_mut(place) {
            file.path = name;
        }
        Ok(())
    }

    fn remove(&mut self, path: &str) -> Result<(), ErrorKind> {
        self.failing.call()?;
        self.place_of(path)?;
        self.drop_file(path);
        Ok(())
    }

    fn list(&mut self, path: &str) -> Result<(), ErrorKind> {
        self.failing.call()?;
        if path != self.folder {
            return Err(ErrorKind::NotFound);
        }
        self.listed = 0;
        Ok(())
    }

    fn next_name(&mut self) -> Result<Option<String>, ErrorKind> {
        self.failing.call()?;
        let Some(file) = self.files.get(self.listed) else {
            return Ok(None);
        };
        self.listed = self.listed.saturating_add(1);
        match file.path.as_str().rsplit_once('/') {
            Some((_, name)) => Ok(Some(kept(String::from_str(self.alloc, name))?)),
            None => Err(ErrorKind::InvalidFilename),
        }
    }

    fn note(&mut self, _dir: &str, _call: Note<'_>) {}
}
