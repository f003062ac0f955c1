//! A lease file as variables.
ghost use Rattle.std.specs.Prelude.{◌≡◌, true};
ghost use Rattle.text_works.specs.Dumping.{IsDumpAnswer, dumping};
ghost use Rattle.text_works.specs.Input.{ReadsWithin, input_told};
ghost use Rattle.text_works.specs.Statuses.{HasStatusCause, Completes};
ghost use Rattle.text_works.specs.Works.{Serves};

use crate::status::Status;
use crate::working::{Finding, TextWork, perform};
use lease_dump::{DumpAnswer, append_variables, dump};
use std::alloc::Global;
use world::{Sink, Source};

/// `dump`: the variables of the lease file that the bytes are.
pub struct DumpWork;

impl TextWork for DumpWork {
    ghost work = { λ _. dumping };

    fn text_of(&self, alloc: Global, bytes: &[u8]) -> Result<Finding, Status> {
        let vars = match dump(alloc, bytes) {
            Ok(vars) => vars,
            Err(DumpAnswer::BadLease { line }) => return Err(Status::Lease { line }),
            Err(DumpAnswer::NoMemory) => return Err(Status::NoMemory),
        };
        let mut text = Vec::new(alloc);
        append_variables(&vars, &mut text)?;
        Ok(Finding::good(text))
    }
}

/// Reads a lease file of at most 16,777,216 bytes from the input, and writes a line `NAME=VALUE` for each of its
/// variables.
#[tactic(auto, using(crate::proofs::InputWorks::dumping_is_decided))]
pub fn dump_lease<I: Source, O: Sink>(alloc: Global, input: &mut I, out: &mut O) -> Status
    ensures answer { IsDumpAnswer result (I.left input.old) (O.written out.old) (O.written out.new) }
    ensures cause { HasStatusCause result (I.faults input.old) (I.faults input.new) (O.faults out.old)
        (O.faults out.new) }
    ensures complete { Serves dumping (I.left input.old) → I.faults input.new ≡ I.faults input.old
        → O.faults out.new ≡ O.faults out.old → Completes result }
    ensures serves { Serves dumping (I.left input.old) → I.never_fails input.old ≡ true → O.never_fails out.old ≡ true
        → Completes result }
    ensures reads { ReadsWithin (input_told (I.left input.old) (I.taken input.old) (I.reads input.old))
        (input_told (I.left input.new) (I.taken input.new) (I.reads input.new)) }
{
    perform(alloc, &DumpWork, input, out)
}
