//! A schedule is lived, and what comes of it is written down.
ghost use Rattle.std.specs.Prelude.{◌≡◌, ◌++◌, [], ◌∷◌, IfOk, OnOk, drop};
ghost use Rattle.settings.specs.Fitting.{AreManaged};
ghost use Rattle.lab_schedule.specs.ScheduleContent.{schedule_of};
ghost use Rattle.lab_model.specs.LabLines as model;
ghost use Rattle.lab_model.specs.LabLines.{last_line, lines_from, lines_text};
ghost use Rattle.lab_text.specs.Living.{Says};
ghost use Rattle.lab_text.specs.Noting.{are_unlike};

use crate::exchanges::Xids;
use crate::lab::Lab;
use lab_schedule::{LabEvent, Schedule};
use net_types::{NoMemory, append_bytes};
use settings::Managed;
use std::alloc::Global;

/// Appends the last line.
fn say_xids(xids: Xids, text: &mut Vec<u8>) -> Result<(), NoMemory>
    ensures { OnOk result (Says (last_line (are_unlike xids) ∷ []) text.old.items text.new.items) }
{
    match xids {
        Xids::Unlike => append_bytes(b"xids unlike\n", text),
        Xids::Repeat => append_bytes(b"xids repeat\n", text),
    }
}

/// Lives what comes after the start, and appends its lines and the last one.
fn live_on(alloc: Global, lab: Lab, events: &[LabEvent], text: &mut Vec<u8>) -> Result<(), NoMemory>
    ensures { OnOk result (Says (lines_from events.now lab) text.old.items text.new.items) }
{
    let mut lab = lab;
    for event in events {
        lab = lab.next(alloc, *event, text)?;
    }
    say_xids(lab.xids(), text)
}

/// The text of the schedule's lab: for the start and for each line after it the moment, the frames that are sent and
/// the leases that are held; and last whether a client used a transaction number again. `managed` are those of its
/// interfaces that the clients manage. Want of memory alone is an error.
#[tactic(auto, unfolding(lab_model::specs::LabLines::lab_text))]
pub fn lab_text(
    alloc: Global,
    managed: &[Managed],
    schedule: &Schedule,
) -> Result<Vec<u8>, NoMemory>
    requires { AreManaged managed.now }
    ensures { IfOk result (λ text. text.items ≡ model.lab_text managed.now (schedule_of schedule.now)) }
{
    let mut text = Vec::new(alloc);
    let lab = Lab::open(alloc, managed, schedule, &mut text)?;
    live_on(alloc, lab, &schedule.events, &mut text)?;
    Ok(text)
}
