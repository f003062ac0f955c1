//! A work that reads the whole of its input, makes a text of it, and writes that; the text may tell what was found
//! against the input.
ghost use Rattle.std.specs.Prelude.{◌≡◌, ◌≢◌, ◌≤◌, true, false, Err, IfOk, IfErr};
ghost use Rattle.text_works.specs.Input.{ReadsWithin, input_told};
ghost use Rattle.text_works.specs.Statuses.{HasStatusCause, Completes};
ghost use Rattle.text_works.specs.Works.{IsDecided, IsDone, IsWorked, MayRefuse, Serves, Tells, Work};

use crate::input::read_all;
use crate::status::Status;
use crate::writing::write_text;
use std::alloc::Global;
use world::{Sink, Source};

/// What is written of an input.
#[derive(Drop)]
pub struct Finding {
    pub text: Vec<u8>,
    /// Whether nothing was found against the input.
    pub good: bool,
}

impl Finding {
    /// The text that was asked for.
    pub fn good(text: Vec<u8>) -> Finding
        ensures { (result.text ≡ text) × (result.good ≡ true) }
    {
        Finding { text, good: true }
    }

    /// The text that tells what was found against the input.
    pub fn against(text: Vec<u8>) -> Finding
        ensures { (result.text ≡ text) × (result.good ≡ false) }
    {
        Finding { text, good: false }
    }
}

/// What is made of the bytes of an input.
pub trait TextWork {
    // the texts that bytes give, and how others are refused
    ghost work: { Self → Work };

    /// The text that the bytes give, or that tells what was found against them, or why they are refused.
    fn text_of(&self, alloc: Global, bytes: &[u8]) -> Result<Finding, Status>
        ensures tells { IfOk result (λ finding. Tells (work self.now) finding.good bytes.now finding.text.items) }
        ensures refuses { IfErr result (MayRefuse ((work self.now).Refuses bytes.now)) };
}

/// Reads the input, and writes the text that tells of it.
#[tactic(auto, using(crate::proofs::WorkLaws::works_end))]
fn give<K: TextWork, I: Source, O: Sink>(
    alloc: Global,
    work: &K,
    input: &mut I,
    out: &mut O,
) -> Result<(), Status>
    ensures ok { IfOk result
        (λ _. IsDone (K.work work.now) (I.left input.old) (O.written out.old) (O.written out.new)
        × (I.faults input.old ≤ I.faults input.new) × (O.faults out.old ≤ O.faults out.new)) }
    ensures err { IfErr result
        (λ status. IsWorked (K.work work.now) status (I.left input.old) (O.written out.old) (O.written out.new)) }
    ensures cause { IfErr result
        (λ status. HasStatusCause status (I.faults input.old) (I.faults input.new) (O.faults out.old)
        (O.faults out.new)) }
    ensures not_done { result ≢ Err Status.Done }
    ensures reads { ReadsWithin (input_told (I.left input.old) (I.taken input.old) (I.reads input.old))
        (input_told (I.left input.new) (I.taken input.new) (I.reads input.new)) }
    ensures input_steady { I.never_fails input.old ≡ true → I.faults input.new ≡ I.faults input.old }
    ensures out_steady { O.never_fails out.old ≡ true → O.faults out.new ≡ O.faults out.old }
{
    let bytes = read_all(alloc, input)?;
    let finding = work.text_of(alloc, &bytes)?;
    write_text(out, &finding.text)?;
    if finding.good {
        Ok(())
    } else {
        Err(Status::Unjustified)
    }
}

/// Reads at most 16,777,216 bytes from the input, and writes the text that tells of them.
#[tactic(auto, using(crate::proofs::WorkLaws::completes_work))]
pub fn perform<K: TextWork, I: Source, O: Sink>(
    alloc: Global,
    work: &K,
    input: &mut I,
    out: &mut O,
) -> Status
    requires decided { IsDecided (K.work work.now) }
    ensures answer { IsWorked (K.work work.now) result (I.left input.old) (O.written out.old) (O.written out.new) }
    ensures cause { HasStatusCause result (I.faults input.old) (I.faults input.new) (O.faults out.old)
        (O.faults out.new) }
    ensures complete { Serves (K.work work.now) (I.left input.old) → I.faults input.new ≡ I.faults input.old
        → O.faults out.new ≡ O.faults out.old → Completes result }
    ensures serves { Serves (K.work work.now) (I.left input.old) → I.never_fails input.old ≡ true
        → O.never_fails out.old ≡ true → Completes result }
    ensures reads { ReadsWithin (input_told (I.left input.old) (I.taken input.old) (I.reads input.old))
        (input_told (I.left input.new) (I.taken input.new) (I.reads input.new)) }
    ensures input_steady { I.never_fails input.old ≡ true → I.faults input.new ≡ I.faults input.old }
    ensures out_steady { O.never_fails out.old ≡ true → O.faults out.new ≡ O.faults out.old }
{
    match give(alloc, work, input, out) {
        Ok(()) => Status::Done,
        Err(status) => status,
    }
}
