//! A capture of packets as a script.
ghost use Rattle.std.specs.Prelude.{◌≡◌, true};
ghost use Rattle.capture_script.specs.CapturedScripts.{spec_of};
ghost use Rattle.text_works.specs.Importing.{IsImportAnswer, importing};
ghost use Rattle.text_works.specs.Input.{ReadsWithin, input_told};
ghost use Rattle.text_works.specs.Statuses.{HasStatusCause, Completes};
ghost use Rattle.text_works.specs.Works.{Serves};

use crate::status::Status;
use crate::working::{Finding, TextWork, perform};
use asked_works::Import;
use capture_script::{ImportAnswer, import};
use std::alloc::Global;
use world::{Sink, Source};

impl TextWork for Import {
    ghost work = { λ self. importing (spec_of self.name self.mac) };

    fn text_of(&self, alloc: Global, bytes: &[u8]) -> Result<Finding, Status> {
        match import(alloc, bytes, self.name, self.mac) {
            Ok(text) => Ok(Finding::good(text)),
            Err(ImportAnswer::Bad(cause)) => Err(Status::Capture(cause)),
            Err(ImportAnswer::NoMemory) => Err(Status::NoMemory),
        }
    }
}

/// Reads a capture of at most 16,777,216 bytes from the input, and writes the script that it means.
#[tactic(auto, using(crate::proofs::InputWorks::importing_is_decided))]
pub fn import_capture<I: Source, O: Sink>(
    alloc: Global,
    on: Import,
    input: &mut I,
    out: &mut O,
) -> Status
    ensures answer { IsImportAnswer (spec_of on.name on.mac) result (I.left input.old) (O.written out.old)
        (O.written out.new) }
    ensures cause { HasStatusCause result (I.faults input.old) (I.faults input.new) (O.faults out.old)
        (O.faults out.new) }
    ensures complete { Serves (importing (spec_of on.name on.mac)) (I.left input.old)
        → I.faults input.new ≡ I.faults input.old → O.faults out.new ≡ O.faults out.old → Completes result }
    ensures serves { Serves (importing (spec_of on.name on.mac)) (I.left input.old) → I.never_fails input.old ≡ true
        → O.never_fails out.old ≡ true → Completes result }
    ensures reads { ReadsWithin (input_told (I.left input.old) (I.taken input.old) (I.reads input.old))
        (input_told (I.left input.new) (I.taken input.new) (I.reads input.new)) }
{
    perform(alloc, &on, input, out)
}
