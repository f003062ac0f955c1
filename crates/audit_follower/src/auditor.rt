//! What goes through the lines of a transcript.
ghost use Rattle.std.specs.Prelude.{◌≡◌, ◌<◌, ◌^◌, ◌∷◌, ◌++◌, ℕ, [], false, option_map, IfOk};
ghost use Rattle.conf_text.specs.Contents.{configuration};
ghost use Rattle.conf_text.specs.Fits.{FitsSpec};
ghost use Rattle.script_model.specs.Lines.{EndOfLife, Read, Start, Turn};
ghost use Rattle.transcript_lines.specs.Bounds.{FitsTold};
ghost use Rattle.transcript_lines.specs.Contents.{line_of, reading_of};
ghost use Rattle.audit_turns.specs.AuditModel.Auditing.{Auditing, after, first, with_line};
ghost use Rattle.audit_sites.specs.Hosts.{IsRead};
ghost use Rattle.audit_turns.specs.Goings.{is_read};
ghost use Rattle.audit_follower.specs.Holding.{Audits, Finds};
ghost use Rattle.audit_seats.specs.Tests.{judged_by};

use crate::course::Course;
use crate::unjust::Unjust;
use audit_seats::Judge;
use audit_sites::{Known, Managing, Opening};
use audit_turns::{Going, what_goes_on_is_the_lifes};
use conf_text::Conf;
use net_types::{IfSpec, NoMemory};
use std::alloc::Global;
use transcript_lines::{FileReading, ToldLine};
use world::{Begin, Event};

/// What is kept as the lines of a transcript go by: the number of the last life, how many turns there were, and what is
/// held of the life that goes on.
#[derive(Drop)]
pub struct Auditor<J> {
    pub known: Known,
    pub lives: u64,
    pub turns: u64,
    pub going: Going,
    pub course: Course<J>,
}

impl<J: Judge + Drop> Auditor<J> {
    /// Before the first line after the head.
    pub fn begin(alloc: Global, conf: Conf) -> Result<Auditor<J>, NoMemory>
        requires { IsRead (configuration conf) }
        ensures { IfOk result (λ begun. Audits J.Tells begun (first (configuration conf))) }
    {
        Ok(Auditor {
            known: Known::new(alloc, conf),
            lives: 0,
            turns: 0,
            going: Going::new(alloc, 0, Vec::new(alloc)),
            course: Course::Between,
        })
    }

    /// With an interface more.
    fn with_interface(self, spec: IfSpec) -> Result<Auditor<J>, NoMemory>
        requires { FitsSpec spec }
        ensures { IfOk result
            (λ next. (kept : Auditing)
            → Audits J.Tells self kept
            → Audits J.Tells next (record kept { ifaces = kept.ifaces ++ spec ∷ [] })) }
    {
        let Auditor {
            known,
            lives,
            turns,
            going,
            course,
        } = self;
        Ok(Auditor {
            known: known.with_interface(spec)?,
            lives,
            turns,
            going,
            course,
        })
    }

    /// With the number of a life.
    fn numbered(self, number: u64) -> Auditor<J>
        ensures { (kept : Auditing) → Audits J.Tells self kept
            → Audits J.Tells result (record kept { lives = number }) }
    {
        let Auditor {
            known,
            turns,
            going,
            course,
            ..
        } = self;
        Auditor {
            known,
            lives: number,
            turns,
            going,
            course,
        }
    }

    /// At the beginning of a life.
    fn started(self, alloc: Global, begin: Begin) -> Result<Auditor<J>, NoMemory>
        requires { begin.at < 10 ^ 15 }
        ensures { IfOk result
            (λ next. (kept : Auditing)
            → Audits J.Tells self kept
            → Audits J.Tells next (after (judged_by J.is_own J.is_shared) kept (Start begin))) }
    {
        let Auditor {
            known,
            lives,
            turns,
            course,
            ..
        } = self;
        let managed = Managing::new(known.managed(alloc)?);
        let numbers = managed.numbers(alloc)?;
        let own = known.macs(alloc)?;
        let course = course.started(Opening {
            managed,
            own,
            begin,
            reads: Vec::new(alloc),
        });
        Ok(Auditor {
            known,
            lives,
            turns,
            going: Going::new(alloc, begin.at, numbers),
            course,
        })
    }

    /// At the beginning of a turn. The one before it is over.
    fn turned(
        self,
        alloc: Global,
        at: u64,
        event: Event,
        bytes: Vec<u8>,
    ) -> Result<Auditor<J>, NoMemory>
        requires { at < 10 ^ 15 }
        ensures { IfOk result
            (λ next. (kept : Auditing) (salt : ℕ)
            → Audits J.Tells self kept
            → Audits J.Tells next (after (judged_by J.is_own J.is_shared) kept (Turn at salt event bytes.items))) }
    {
        let Auditor {
            known,
            lives,
            turns,
            going,
            course,
        } = self;
        let course = course.closed(alloc, lives, &going)?;
        Ok(Auditor {
            known,
            lives,
            turns: turns.saturating_add(1),
            going: going.next(alloc, at, event, bytes),
            course,
        })
    }

    /// At the end of a life. Its last turn is over.
    fn ended(self, alloc: Global) -> Result<Auditor<J>, NoMemory>
        ensures { IfOk result
            (λ next. (kept : Auditing)
            → Audits J.Tells self kept
            → Audits J.Tells next (after (judged_by J.is_own J.is_shared) kept EndOfLife)) }
    {
        let Auditor {
            known,
            lives,
            turns,
            going,
            course,
        } = self;
        let course = course.closed(alloc, lives, &going)?.ended();
        Ok(Auditor {
            known,
            lives,
            turns,
            going,
            course,
        })
    }

    /// With a file that was read.
    fn with_read(
        self,
        alloc: Global,
        name: &[u8],
        reading: FileReading,
    ) -> Result<Auditor<J>, NoMemory>
        ensures { IfOk result
            (λ next. (kept : Auditing)
            → Audits J.Tells self kept
            → Audits J.Tells next
            (after (judged_by J.is_own J.is_shared) kept (Read name.now (reading_of reading)))) }
    {
        let Auditor {
            known,
            lives,
            turns,
            going,
            course,
        } = self;
        let mut owned = Vec::new(alloc);
        owned.extend_from_slice(name)?;
        Ok(Auditor {
            known,
            lives,
            turns,
            going,
            course: course.with_read(owned, reading)?,
        })
    }

    /// With another line of a turn.
    fn told(self, alloc: Global, line: ToldLine<'_>) -> Result<Auditor<J>, NoMemory>
        requires { is_read (line_of line) ≡ false }
        ensures { IfOk result
            (λ next. (kept : Auditing)
            → Audits J.Tells self kept
            → Audits J.Tells next (record kept { living = option_map (with_line (line_of line.entry)) kept.living })) }
    {
        let Auditor {
            known,
            lives,
            turns,
            going,
            course,
        } = self;
        what_goes_on_is_the_lifes();
        Ok(Auditor {
            known,
            lives,
            turns,
            going: going.told(alloc, line)?,
            course,
        })
    }

    /// The first address without basis, where one was shown.
    #[tactic(auto, using(crate::proofs::CourseLaws::finds_found, crate::proofs::CourseLaws::finds_none))]
    pub fn found(&self) -> Option<Unjust>
        ensures { (kept : Auditing) → Audits J.Tells self.now kept → Finds result kept.unjust }
    {
        match &self.course {
            Course::Found(unjust) => Some(*unjust),
            Course::Between | Course::Opening(_) | Course::Within(_) => None,
        }
    }

    /// With a line more.
    pub fn follow(self, alloc: Global, line: ToldLine<'_>) -> Result<Auditor<J>, NoMemory>
        requires { FitsTold (line_of line) }
        ensures { IfOk result
            (λ next. (kept : Auditing)
            → Audits J.Tells self kept
            → Audits J.Tells next (after (judged_by J.is_own J.is_shared) kept (line_of line.entry))) }
    {
        match line {
            ToldLine::Interface(spec) => self.with_interface(spec),
            ToldLine::Life(number) => Ok(self.numbered(number)),
            ToldLine::Start(begin) => self.started(alloc, begin),
            ToldLine::Turn {
                at,
                event,
                bytes,
                ..
            } => self.turned(alloc, at, event, bytes),
            ToldLine::EndOfLife => self.ended(alloc),
            ToldLine::Read { name, reading } => self.with_read(alloc, name, reading),
            other => self.told(alloc, other),
        }
    }
}
