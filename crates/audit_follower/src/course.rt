//! How far a transcript has come.
ghost use Rattle.std.specs.Prelude.{◌≡◌, ◌<◌, ◌^◌, ◌∷◌, ◌++◌, [], ℕ, Option, None, Some, option_map, IfOk, List};
ghost use Rattle.world.specs.declared.wakes.Event.{Event};
ghost use Rattle.world.specs.StoreCalls.{ReadFile};
ghost use Rattle.script_model.specs.Lines.{Line};
ghost use Rattle.transcript_lines.specs.Contents.{reading_of};
ghost use Rattle.audit_turns.specs.AuditModel.Auditing as model;
ghost use Rattle.audit_turns.specs.AuditModel.Auditing.{Living, turned, unjust_first, unjust_in};
ghost use Rattle.audit_turns.specs.Goings.{GoesOn, going_in, going_of};
ghost use Rattle.audit_follower.specs.Holding.{Courses, IsSeated, with_read};
ghost use Rattle.audit_sites.specs.Openings.{Opens};
ghost use Rattle.audit_seats.specs.Tests.{judged_by};

use crate::seated::Seated;
use crate::unjust::Unjust;
use audit_seats::{Judge, all_first, all_turned, first_lacking};
use audit_sites::{FileRead, Opening, seats_of};
use audit_turns::Going;
use net_types::NoMemory;
use std::alloc::Global;
use transcript_lines::FileReading;

/// How far a transcript has come.
#[derive(Drop)]
pub enum Course<J> {
    /// No life goes on.
    Between,
    /// The opening of a life goes on.
    Opening(Opening),
    /// A turn goes on, and its opening is over.
    Within(Seated<J>),
    /// An address without basis was shown. No life is looked at any more.
    Found(Unjust),
}

/// The judges of the life whose opening is over, before all turns.
#[tactic(auto, using(crate::proofs::CourseLaws::seated_first))]
fn seated<J: Judge + Drop>(alloc: Global, opening: Opening) -> Result<Seated<J>, NoMemory>
    ensures { IfOk result
        (λ seated. (living : Living) → Opens opening living → IsSeated J.Tells seated living) }
{
    let seats = seats_of(alloc, opening)?;
    let watched = all_first(alloc, seats)?;
    Ok(Seated { watched, count: 0 })
}

impl<J: Judge + Drop> Seated<J> {
    /// With the turn that goes on, which is over. It is the last one where it shows an address without basis.
    fn closed(self, alloc: Global, life: u64, going: &Going) -> Result<Course<J>, NoMemory>
        ensures { IfOk result
            (λ next. (living : Living) (at : ℕ) (event : Event) (bytes : List ℕ)
            → going_of going.now ≡ going_in living
            → IsSeated J.Tells self living
            → Courses J.Tells next (Some (turned at event bytes living))
            (unjust_in (judged_by J.is_own J.is_shared) life (Some living))) }
    {
        let Seated { watched, count } = self;
        let watched = all_turned(alloc, watched, &going.entry)?;
        match first_lacking(&watched, going) {
            Some(row) => Ok(Course::Found(Unjust {
                life,
                turn: count,
                row,
            })),
            None => Ok(Course::Within(Seated {
                watched,
                count: count.saturating_add(1),
            })),
        }
    }
}

impl<J: Judge + Drop> Course<J> {
    /// At the beginning of a life.
    pub fn started(self, opening: Opening) -> Course<J>
        ensures { (living : Option Living) (unjust : Option model.Unjust) (next : Living)
            → Courses J.Tells self living unjust
            → Opens opening next
            → Courses J.Tells result (Some next) unjust }
    {
        match self {
            Course::Found(unjust) => Course::Found(unjust),
            Course::Between | Course::Opening(_) | Course::Within(_) => Course::Opening(opening),
        }
    }

    /// With a file that was read, which counts in an opening alone.
    #[tactic(auto, using(crate::proofs::CourseLaws::courses_read))]
    pub fn with_read(self, name: Vec<u8>, reading: FileReading) -> Result<Course<J>, NoMemory>
        ensures { IfOk result
            (λ next. (living : Option Living) (unjust : Option model.Unjust)
            → Courses J.Tells self living unjust
            → Courses J.Tells next
            (option_map (with_read (ReadFile name.items (reading_of reading))) living) unjust) }
    {
        match self {
            Course::Opening(
                Opening {
                    managed,
                    own,
                    begin,
                    mut reads,
                },
            ) => {
                reads.push(FileRead { name, reading })?;
                Ok(Course::Opening(Opening {
                    managed,
                    own,
                    begin,
                    reads,
                }))
            }
            Course::Between => Ok(Course::Between),
            Course::Within(seated) => Ok(Course::Within(seated)),
            Course::Found(unjust) => Ok(Course::Found(unjust)),
        }
    }

    /// With the turn that goes on, which is over.
    #[tactic(auto, using(crate::proofs::CourseLaws::courses_close))]
    pub fn closed(self, alloc: Global, life: u64, going: &Going) -> Result<Course<J>, NoMemory>
        ensures { IfOk result
            (λ next. (living : Option Living) (unjust : Option model.Unjust) (at : ℕ) (event : Event) (bytes : List ℕ)
            → GoesOn living (going_of going.now)
            → Courses J.Tells self living unjust
            → Courses J.Tells next (option_map (turned at event bytes) living)
            (unjust_first unjust (unjust_in (judged_by J.is_own J.is_shared) life living))) }
    {
        match self {
            Course::Opening(opening) => {
                let seated = seated(alloc, opening)?;
                seated.closed(alloc, life, going)
            }
            Course::Within(seated) => seated.closed(alloc, life, going),
            Course::Between => Ok(Course::Between),
            Course::Found(unjust) => Ok(Course::Found(unjust)),
        }
    }

    /// After the end of the life, whose last turn is over.
    pub fn ended(self) -> Course<J>
        ensures { (living : Option Living) (unjust : Option model.Unjust)
            → Courses J.Tells self living unjust
            → Courses J.Tells result None unjust }
    {
        match self {
            Course::Found(unjust) => Course::Found(unjust),
            Course::Between | Course::Opening(_) | Course::Within(_) => Course::Between,
        }
    }
}
