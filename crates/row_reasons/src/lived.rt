//! What is kept of a life that goes on.
ghost use Rattle.std.specs.Prelude.{◌≡◌, ◌++◌, [], ℕ, IfOk, List, Option, option_map, None, Some};
ghost use Rattle.std.specs.List.{cons_option, filter_map};
ghost use Rattle.world.specs.declared.wakes.Event.{Event};
ghost use Rattle.transcript_audit.specs.AuditModel.Auditing.{Living, turned};
ghost use Rattle.transcript_audit.specs.AuditSeats.Seats.{sites_of};
ghost use Rattle.transcript_audit.specs.AuditTurns.Goings.{going_of};
ghost use Rattle.basis_turns.specs.Turns.{shown_after};
ghost use Rattle.row_reasons.specs.ReasonLines.{judged_now, life_judged, line_at, said_of};
ghost use Rattle.row_reasons.specs.Judging.{IsAfter};
ghost use Rattle.row_reasons.specs.LifeHeld.{ClosesOne, Holds, IsLived, rows_judged, turn_judged};

use crate::finding::{Judged, row_reason};
use crate::line::BasisLine;
use basis_turns::ShownTurn;
use net_types::NoMemory;
use std::alloc::Global;
use std::collections::BTreeSet;
use transcript_audit::{Going, Opening, seats_of};
use world::HostRow;

/// A turn that is judged: its number, which is 0 for an opening, how many turns there were by its end, and the
/// addresses shown after it.
#[derive(Drop)]
pub struct JudgedTurn {
    pub number: usize,
    pub count: usize,
    pub rows: Vec<HostRow>,
}

/// What a life's opening told, the turns that are over, and the last judged one of them.
#[derive(Drop)]
pub struct Lived {
    pub opening: Opening,
    pub turns: Vec<ShownTurn>,
    pub judged: Option<JudgedTurn>,
}

/// Rows, in their order.
fn rows_in(alloc: Global, rows: &BTreeSet<HostRow>) -> Result<Vec<HostRow>, NoMemory>
    ensures { IfOk result (λ all. all.items ≡ rows.now.keys) }
{
    Ok(rows.iter().copied().collect(alloc)?)
}

/// The addresses shown after the turn that goes on, unless a call of the host failed in it.
pub fn judged_rows(alloc: Global, going: &Going) -> Result<Option<Vec<HostRow>>, NoMemory>
    ensures { IfOk result (λ rows. option_map (λ all. all.items) rows ≡ rows_judged (going_of going.now)) }
{
    if going.failed {
        Ok(None)
    } else {
        Ok(Some(rows_in(alloc, &going.rows)?))
    }
}

/// The line on a row that is shown after some turns of the life of a number.
fn line_at(
    alloc: Global,
    judged: &Judged,
    turns: &[ShownTurn],
    life: u64,
    number: usize,
    row: HostRow,
) -> Result<Option<BasisLine>, NoMemory>
    requires { IsAfter (shown_after [] turns.now) judged.now }
    ensures { IfOk result
        (λ line. line ≡ line_at life number (sites_of judged.now.watched.items) (shown_after [] turns.now) row) }
{
    match row_reason(alloc, judged, turns, row)? {
        Some(reason) => Ok(Some(BasisLine {
            life,
            turn: number,
            row,
            reason,
        })),
        None => Ok(None),
    }
}

/// The lines on the rows that are shown after some turns of the life of a number.
fn lines_on(
    alloc: Global,
    judged: &Judged,
    turns: &[ShownTurn],
    life: u64,
    number: usize,
    rows: &[HostRow],
) -> Result<Vec<BasisLine>, NoMemory>
    requires { IsAfter (shown_after [] turns.now) judged.now }
    ensures { IfOk result
        (λ lines. lines.items
        ≡ filter_map (line_at life number (sites_of judged.now.watched.items) (shown_after [] turns.now)) rows.now) }
{
    let mut lines = Vec::new(alloc);
    for row in rows {
        let line = line_at(alloc, judged, turns, life, number, *row)?;
        push_some(&mut lines, line)?;
    }
    Ok(lines)
}

/// With one line more, if there is one.
fn push_some(lines: &mut Vec<BasisLine>, line: Option<BasisLine>) -> Result<(), NoMemory>
    ensures { IfOk result (λ _. lines.new.items ≡ lines.old.items ++ cons_option line []) }
{
    match line {
        Some(line) => {
            lines.push(line)?;
            Ok(())
        }
        None => Ok(()),
    }
}

/// The last judged turn, after the turn of a number that is over, up to which there are so many.
fn judged_after(
    number: usize,
    count: usize,
    rows: Option<Vec<HostRow>>,
    before: Option<JudgedTurn>,
) -> Option<JudgedTurn>
    ensures { result ≡ turn_judged number count rows before }
{
    match rows {
        Some(rows) => Some(JudgedTurn {
            number,
            count,
            rows,
        }),
        None => before,
    }
}

impl Lived {
    /// Before the first turn is over.
    pub fn new(alloc: Global, opening: Opening) -> Lived
        ensures opening { result.opening ≡ opening }
        ensures turns { result.turns.items ≡ [] }
        ensures judged { result.judged ≡ None }
    {
        Lived {
            opening,
            turns: Vec::new(alloc),
            judged: None,
        }
    }

    /// With a turn more, which is over, and the addresses shown after it if it is judged.
    pub fn with_turn(self, turn: ShownTurn, rows: Option<Vec<HostRow>>) -> Result<Lived, NoMemory>
        ensures { IfOk result
            (λ next. (living : Living) (judged : Option Living) (at : ℕ) (event : Event) (bytes : List ℕ)
            → ClosesOne turn rows living
            → Holds self living judged
            → IsLived next (turned at event bytes living) (judged_now (Some living) judged)) }
    {
        let Lived {
            opening,
            mut turns,
            judged,
        } = self;
        let number = turns.len();
        turns.push(turn)?;
        let judged = judged_after(number, turns.len(), rows, judged);
        Ok(Lived {
            opening,
            turns,
            judged,
        })
    }

    /// The lines on the life of a number, which is over.
    pub fn lines(self, alloc: Global, life: u64) -> Result<Vec<BasisLine>, NoMemory>
        ensures { IfOk result
            (λ lines. (living : Living) (judged : Option Living)
            → Holds self living judged
            → lines.items ≡ said_of (life_judged life judged)) }
    {
        let Lived {
            opening,
            mut turns,
            judged: last,
        } = self;
        let Some(
            JudgedTurn {
                number,
                count,
                rows,
            },
        ) = last
        else {
            return Ok(Vec::new(alloc));
        };
        turns.truncate(count);
        let judged = Judged::after(alloc, seats_of(alloc, opening)?, &turns)?;
        lines_on(alloc, &judged, &turns, life, number, &rows)
    }
}
