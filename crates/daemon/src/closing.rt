//! The end of a life in the transcript: the addresses that it leaves, then its last line.

ghost use Rattle.std.specs.Prelude.{◌≡◌, ◌≤◌, true, OnOk, IfOk, IfErr, [], ◌∷◌};
ghost use Rattle.std.specs.List.{AllByRecursion};
ghost use Rattle.world.specs.Rows.{IsRow};
ghost use Rattle.client_model.specs.Clients.{rows_of};
ghost use Rattle.turn_model.specs.Lives.{hold_lines, closing_lines};
ghost use Rattle.daemon.specs.Lives.{life_of};
ghost use Rattle.device_calls.specs.Printing.{Prints};
ghost use Rattle.daemon.specs.Serving.{HasServeCause};
ghost use Rattle.daemon.specs.Streams.{WritesLines, WritesFront};

use crate::lives::Life;
use crate::serving::ServeEnd;
use crate::waking::write_all;
use client_core::rows;
use life_devices::say;
use transcript_text::TranscriptLine;
use world::{HostRow, NoMemory, Sink};

fn say_hold(row: &HostRow, text: &mut Vec<u8>) -> Result<(), NoMemory>
    requires { IsRow row.now }
    ensures { OnOk result (Prints text.old.items text.new.items (hold_lines (row.now ∷ []))) }
{
    match *row {
        HostRow::Addr { iface, net } => say(&TranscriptLine::Hold { iface, net }, text),
        HostRow::Route { .. } => Ok(()),
    }
}

fn say_holds(rows: &[HostRow], text: &mut Vec<u8>) -> Result<(), NoMemory>
    requires { AllByRecursion IsRow rows.now }
    ensures { OnOk result (Prints text.old.items text.new.items (hold_lines rows.now)) }
{
    for row in rows {
        say_hold(row, text)?;
    }
    Ok(())
}

fn say_closing(life: &Life, text: &mut Vec<u8>) -> Result<(), NoMemory>
    ensures { OnOk result (Prints text.old.items text.new.items (closing_lines (life_of life.now))) }
{
    say_holds(rows(&life.core), text)?;
    say(&TranscriptLine::EndOfLife, text)?;
    Ok(())
}

/// Writes the last lines of a life: the addresses that it leaves.
#[tactic(auto, using(crate::proofs::Stretches::text_written, crate::proofs::CutOffs::front_some))]
pub fn close<O: Sink>(life: &Life, out: &mut O, text: &mut Vec<u8>) -> Result<(), ServeEnd>
    ensures ok { IfOk result
        (λ _. (O.faults out.old ≤ O.faults out.new)
        × WritesLines (O.written out.old) (O.written out.new) (closing_lines (life_of life.now))) }
    ensures front { IfErr result
        (λ _. WritesFront (O.written out.old) (O.written out.new) [] (closing_lines (life_of life.now))) }
    ensures cause { IfErr result (λ end. HasServeCause end (O.faults out.old) (O.faults out.new) 0 0) }
    ensures steady { O.never_fails out.old ≡ true → O.faults out.new ≡ O.faults out.old }
    ensures stays { O.never_fails out.new ≡ O.never_fails out.old }
{
    text.clear();
    say_closing(life, text)?;
    write_all(out, text)?;
    Ok(())
}
