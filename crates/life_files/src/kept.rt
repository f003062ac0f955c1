//! The files that a life keeps, all together.
ghost use Rattle.std.specs.Prelude.{◌≡◌, IfOk, IfErr};
ghost use Rattle.std.specs.List.{list_any};
ghost use Rattle.device_calls.specs.Does.{Does};
ghost use Rattle.device_calls.specs.Fronts.{HasBegun};
ghost use Rattle.turn_model.specs.KeptFiles.{keeping, is_unknown};
ghost use Rattle.life_files.specs.Files.{is_partial};
ghost use Rattle.life_files.specs.Keeping.{AreKept, AreKeptBut};

use crate::keeping::{KeptFile, Touched, keep_all};
use client_core::Core;
use life_devices::Outside;
use std::alloc::Global;
use std::marker::Model;
use world::NoMemory;

/// Whether it is known of all files what they hold.
#[derive(Clone, Copy, PartialEq, Eq)]
pub enum Knowledge {
    Whole,
    /// Of some it isn't.
    Partial,
}

/// Whether a file is unknown.
fn any_unknown(files: &[KeptFile]) -> bool
    ensures { result ≡ list_any (λ file. is_unknown file.known) files.now }
{
    files.iter().any(|file| file.is_unknown())
}

/// What is known of the files.
fn knowledge_of(files: &[KeptFile]) -> Knowledge
    ensures { is_partial result ≡ list_any (λ file. is_unknown file.known) files.now }
{
    if any_unknown(files) {
        Knowledge::Partial
    } else {
        Knowledge::Whole
    }
}

/// The files that a life keeps, and whether one of them is unknown.
#[derive(Drop)]
pub struct KeptFiles {
    files: Vec<KeptFile>,
    knowledge: Knowledge,
}

impl Model for KeptFiles {
    ghost use Rattle.std.specs.Prelude.{◌≡◌, List};
    ghost use Rattle.std.specs.List.{list_any};
    ghost use Rattle.turn_model.specs.KeptFiles as model;
    ghost use Rattle.turn_model.specs.KeptFiles.{is_unknown};
    ghost use Rattle.life_files.specs.Files.{is_partial};

    ghost Value = { List model.KeptFile };

    ghost view = { λ kept. kept.files.items };

    ghost invariant = { λ kept. is_partial kept.knowledge ≡ list_any (λ file. is_unknown file.known) kept.files.items };
}

impl KeptFiles {
    /// What is known of these files, each asked under its own name.
    pub fn new(files: Vec<KeptFile>) -> KeptFiles
        ensures { result ≡ files.items }
    {
        let knowledge = knowledge_of(&files);
        KeptFiles { files, knowledge }
    }

    /// Whether a file is unknown.
    pub fn any_unknown(&self) -> bool
        ensures { result ≡ list_any (λ file. is_unknown file.known) self.now }
    {
        match self.knowledge {
            Knowledge::Whole => false,
            Knowledge::Partial => true,
        }
    }
}

/// Brings the files to what they are to hold. Where nothing was touched, those that are known hold it.
pub fn keep_files<W: Outside>(
    alloc: Global,
    core: &Core,
    touched: Touched<'_>,
    files: KeptFiles,
    outside: &mut W,
    text: &mut Vec<u8>,
) -> Result<KeptFiles, NoMemory>
    requires { AreKeptBut touched core.now.ifaces files }
    ensures does { IfOk result
        (λ kept. Does (keeping core.now.ifaces files) kept (W.seen outside.old)
        (W.seen outside.new) text.old.items text.new.items) }
    ensures begun { IfErr result
        (λ _. HasBegun (keeping core.now.ifaces files) (W.seen outside.old) (W.seen outside.new)) }
    ensures waiting { (W.seen outside.new).waiting ≡ (W.seen outside.old).waiting }
    ensures kept { IfOk result (λ kept. AreKept core.now.ifaces kept) }
{
    if touched.is_nothing() && !files.any_unknown() {
        return Ok(files);
    }
    let KeptFiles {
        files,
        knowledge: _,
    } = files;
    let kept = keep_all(alloc, core, touched, files, outside, text)?;
    Ok(KeptFiles::new(kept))
}
