//! The files of a store in memory, kept by name, and a type for the names that a file may have.

ghost use Rattle.std.specs.Prelude.{◌≡◌, map, IfOk, IfErr, OnOk, OnErr, option_map};
ghost use Rattle.std.specs.String.{string_bytes};
ghost use Rattle.world.specs.FileNames.{IsFileName};
ghost use Rattle.world.specs.FileLists.{put_file, drop_file, file_at};
ghost use Rattle.store_mem.specs.StoreRecord.{entry_file};

use call_record::copy_text;
use std::alloc::Global;
use std::collections::BTreeMap;
use std::marker::Model;
use world::DeviceAnswer;

/// The files by their names.
pub(crate) type Files = BTreeMap<String, Vec<u8>>;

/// Puts a file at its place, or nothing where memory runs out.
pub(crate) fn put(files: &mut Files, name: String, bytes: Vec<u8>) -> Result<(), DeviceAnswer>
    ensures ok { OnOk result
        (map entry_file files.new.entries
        ≡ put_file (record { name = string_bytes name; bytes = bytes.items })
        (map entry_file files.old.entries)) }
    ensures unchanged { OnErr result (files.new.entries ≡ files.old.entries) }
    ensures err { IfErr result (λ e. e ≡ DeviceAnswer.NoMemory) }
{
    match files.insert(name, bytes) {
        Ok(_) => Ok(()),
        Err(_) => Err(DeviceAnswer::NoMemory),
    }
}

/// Takes a file out, where there is one.
pub(crate) fn take_out(files: &mut Files, name: &str)
    ensures { map entry_file files.new.entries ≡ drop_file name.now (map entry_file files.old.entries) }
{
    let _ = files.remove(name);
}

/// The bytes of a file.
pub(crate) fn bytes_of<'a>(files: &'a Files, name: &str) -> Option<&'a [u8]>
    ensures { option_map (λ bytes. bytes.now) result ≡ file_at name.now (map entry_file files.now.entries) }
{
    match files.get(name) {
        Some(bytes) => Some(bytes.as_slice()),
        None => None,
    }
}

/// The name of a file.
#[derive(Drop)]
pub(crate) struct FileName {
    text: String,
}

impl Model for FileName {
    ghost use Rattle.std.specs.Prelude.{ℕ, List};
    ghost use Rattle.std.specs.String.{string_bytes};
    ghost use Rattle.world.specs.FileNames.{IsFileName};

    ghost Value = { List ℕ };

    ghost view = { λ name. string_bytes name.text };

    ghost invariant = { λ name. IsFileName (string_bytes name.text) };
}

impl FileName {
    /// A copy of a name.
    pub(crate) fn new(alloc: Global, name: &str) -> Result<FileName, DeviceAnswer>
        requires { IsFileName name.now }
        ensures ok { IfOk result (λ copy. copy ≡ name.now) }
        ensures err { IfErr result (λ e. e ≡ DeviceAnswer.NoMemory) }
    {
        let text = copy_text(alloc, name)?;
        Ok(FileName { text })
    }

    pub(crate) fn as_str(&self) -> &str
        ensures text { result.now ≡ self.now }
        ensures named { IsFileName self.now }
    {
        &self.text
    }
}
