//! The lab of a schedule: many clients, and one server that answers them.
ghost use Rattle.std.specs.Prelude.{◌≡◌, true, IfOk, IfErr};
ghost use Rattle.net_types.specs.FirstBadLine.{IsSpelled};
ghost use Rattle.lab_schedule.specs.Schedules.{SpellsSchedule};
ghost use Rattle.lab_schedule.specs.ScheduleContent.{schedule_of};
ghost use Rattle.text_works.specs.Input.{ReadsWithin, input_told};
ghost use Rattle.text_works.specs.Labs.{IsLabAnswer, lab_work};
ghost use Rattle.text_works.specs.LabsHeld.{IsHeldApart};
ghost use Rattle.text_works.specs.Statuses.{HasStatusCause, Completes};
ghost use Rattle.text_works.specs.Works.{MayRefuse, Serves};

use crate::settling::read_configuration;
use crate::status::Status;
use crate::working::{Finding, TextWork, perform};
use conf_text::managed;
use lab_schedule::{Schedule, ScheduleAnswer, read_schedule};
use lab_text::lab_text;
use std::alloc::Global;
use world::{Sink, Source};

/// `lab`: the text of the lab of the schedule that the bytes are.
pub struct LabWork;

/// Reads a schedule.
fn schedule_of(alloc: Global, bytes: &[u8]) -> Result<Schedule, Status>
    ensures found { IfOk result (λ schedule. IsSpelled SpellsSchedule bytes.now (schedule_of schedule)) }
    ensures bad { IfErr result (MayRefuse (lab_work.Refuses bytes.now)) }
{
    match read_schedule(alloc, bytes) {
        Ok(schedule) => Ok(schedule),
        Err(ScheduleAnswer::Bad { line }) => Err(Status::Schedule { line }),
        Err(ScheduleAnswer::NoMemory) => Err(Status::NoMemory),
    }
}

impl TextWork for LabWork {
    ghost work = { λ _. lab_work };

    #[tactic(auto, using(crate::proofs::InputWorks::refused_schedule, crate::proofs::InputWorks::lab_managed))]
    fn text_of(&self, alloc: Global, bytes: &[u8]) -> Result<Finding, Status> {
        let schedule = schedule_of(alloc, bytes)?;
        let conf = read_configuration(alloc, &schedule.conf)?;
        let managed = managed(alloc, &conf, &schedule.ifaces)?;
        let text = lab_text(alloc, &managed, &schedule)?;
        Ok(Finding::good(text))
    }
}

/// Reads a schedule of at most 16,777,216 bytes from the input, and writes what its clients and their server send, and
/// which leases are held.
#[tactic(auto, using(crate::proofs::InputWorks::lab_is_decided, crate::proofs::LabsApart::lab_is_apart))]
pub fn lab<I: Source, O: Sink>(alloc: Global, input: &mut I, out: &mut O) -> Status
    ensures answer { IsLabAnswer result (I.left input.old) (O.written out.old) (O.written out.new) }
    ensures apart { result ≡ Status.Done → IsHeldApart (I.left input.old) (O.written out.old) (O.written out.new) }
    ensures cause { HasStatusCause result (I.faults input.old) (I.faults input.new) (O.faults out.old)
        (O.faults out.new) }
    ensures complete { Serves lab_work (I.left input.old) → I.faults input.new ≡ I.faults input.old
        → O.faults out.new ≡ O.faults out.old → Completes result }
    ensures serves { Serves lab_work (I.left input.old) → I.never_fails input.old ≡ true → O.never_fails out.old ≡ true
        → Completes result }
    ensures reads { ReadsWithin (input_told (I.left input.old) (I.taken input.old) (I.reads input.old))
        (input_told (I.left input.new) (I.taken input.new) (I.reads input.new)) }
{
    perform(alloc, &LabWork, input, out)
}
