//! What goes through the lines of a transcript, and makes the lines that say why.
ghost use Rattle.std.specs.Prelude.{◌≡◌, ◌<◌, ◌^◌, ◌++◌, ◌∷◌, [], ℕ, false, IfOk, IfSome, List, Option, option_map, Some, None};
ghost use Rattle.world.specs.declared.wakes.Event.{Event};
ghost use Rattle.world.specs.StoreCalls.{ReadFile};
ghost use Rattle.conf_text.specs.Contents.{configuration};
ghost use Rattle.conf_text.specs.Fits.{FitsSpec};
ghost use Rattle.script_model.specs.Lines.{EndOfLife, Read, Start, Turn};
ghost use Rattle.transcript_lines.specs.Bounds.{FitsTold};
ghost use Rattle.transcript_lines.specs.Contents.{line_of, reading_of};
ghost use Rattle.transcript_model.specs.LifeShapes.{Follows};
ghost use Rattle.row_reasons.specs.AuditModel.Auditing.{Living, turned, with_line};
ghost use Rattle.row_reasons.specs.AuditSites.Hosts.{IsRead};
ghost use Rattle.row_reasons.specs.AuditSites.Openings.{Opens};
ghost use Rattle.row_reasons.specs.AuditTurns.Goings.{going_in, going_of, is_read};
ghost use Rattle.row_reasons.specs.AuditWords.Shown.{entry_shown};
ghost use Rattle.row_reasons.specs.TranscriptAudit.AuditFollower.Holding.{with_read};
ghost use Rattle.row_reasons.specs.ReasonLines.{judged_now, life_judged, said_of};
ghost use Rattle.row_reasons.specs.LifeHeld.{rows_judged};
ghost use Rattle.audit_reasons.specs.Explaining.{Explaining, after, first};
ghost use Rattle.audit_reasons.specs.Holding.{Closes, Courses, Explains};

use conf_text::Conf;
use net_types::{IfSpec, NoMemory};
use row_reasons::{
    BasisLine, Entry, FileRead, Going, Known, Lived, Managing, Opening, ShownTurn, judged_rows,
    what_goes_on_is_the_lifes,
};
use std::alloc::Global;
use transcript_lines::{FileReading, ToldLine};
use transcript_read::Follower;
use world::{Begin, Event, HostRow};

/// How far a transcript has come.
#[derive(Drop)]
pub enum Course {
    /// No life goes on.
    Between,
    /// The opening of a life goes on.
    Opening(Opening),
    /// A turn goes on, and its opening is over.
    Within(Lived),
}

impl Course {
    /// With a file that was read, which counts in an opening alone.
    #[tactic(auto, using(crate::proofs::CourseLaws::opening_read, crate::proofs::CourseLaws::within_read, crate::proofs::CourseLaws::between_read))]
    fn with_read(self, name: Vec<u8>, reading: FileReading) -> Result<Course, NoMemory>
        ensures { IfOk result
            (λ next. (living judged : Option Living)
            → Courses self living judged
            → Courses next (option_map (with_read (ReadFile name.items (reading_of reading))) living) judged) }
    {
        match self {
            Course::Opening(
                Opening {
                    managed,
                    own,
                    begin,
                    mut reads,
                },
            ) => {
                reads.push(FileRead { name, reading })?;
                Ok(Course::Opening(Opening {
                    managed,
                    own,
                    begin,
                    reads,
                }))
            }
            Course::Between => Ok(Course::Between),
            Course::Within(lived) => Ok(Course::Within(lived)),
        }
    }

    /// With the turn that goes on, which is over, and the addresses shown after it if it is judged.
    fn closed(
        self,
        alloc: Global,
        turn: ShownTurn,
        rows: Option<Vec<HostRow>>,
    ) -> Result<Course, NoMemory>
        ensures { IfOk result
            (λ next. (living judged : Option Living) (at : ℕ) (event : Event) (bytes : List ℕ)
            → Closes turn rows living
            → Courses self living judged
            → Courses next (option_map (turned at event bytes) living) (judged_now living judged)) }
    {
        match self {
            Course::Between => Ok(Course::Between),
            Course::Opening(opening) => {
                let lived = Lived::new(alloc, opening).with_turn(turn, rows)?;
                Ok(Course::Within(lived))
            }
            Course::Within(lived) => Ok(Course::Within(lived.with_turn(turn, rows)?)),
        }
    }

    /// The lines on the life of a number, whose turns are all over.
    fn lines(self, alloc: Global, life: u64) -> Result<Vec<BasisLine>, NoMemory>
        ensures { IfOk result
            (λ lines. (living judged : Option Living)
            → Courses self living judged
            → lines.items ≡ said_of (life_judged life judged)) }
    {
        match self {
            Course::Between | Course::Opening(_) => Ok(Vec::new(alloc)),
            Course::Within(lived) => lived.lines(alloc, life),
        }
    }
}

/// The turn that goes on, which is over.
fn over(going: Going) -> ShownTurn
    ensures { entry_shown result.entry ≡ (going_of going).entry }
{
    let Going { entry, .. } = going;
    ShownTurn { entry }
}

/// The turn that goes on, which is over, and the next one.
struct NextTurn {
    over: ShownTurn,
    going: Going,
}

/// At the beginning of the next turn.
fn next_turn(alloc: Global, going: Going, at: u64, event: Event, bytes: Vec<u8>) -> NextTurn
    requires { at < 10 ^ 15 }
    ensures over { entry_shown result.over.entry ≡ (going_of going).entry }
    ensures next { going_of result.going
        ≡ record (going_of going) {
          entry = record { moment = at; event = event; bytes = bytes.items; offers = [] };
          failed = false;
        } }
{
    let Going {
        entry,
        numbers,
        rows,
        ..
    } = going;
    NextTurn {
        over: ShownTurn { entry },
        going: Going {
            entry: Entry {
                moment: at,
                event,
                bytes,
                offers: Vec::new(alloc),
            },
            failed: false,
            numbers,
            rows,
        },
    }
}

/// What is kept as the lines of a transcript go by: the number of the last life, what is held of the life that goes on,
/// and the lines on those that ended.
#[derive(Drop)]
pub struct Explainer {
    pub known: Known,
    pub life: u64,
    pub going: Going,
    pub course: Course,
    pub lines: Vec<BasisLine>,
}

impl Explainer {
    /// With an interface more.
    fn with_interface(self, spec: IfSpec) -> Result<Explainer, NoMemory>
        requires { FitsSpec spec }
        ensures { IfOk result
            (λ next. (state : Explaining)
            → Explains self state
            → Explains next (record state { ifaces = state.ifaces ++ spec ∷ [] })) }
    {
        let Explainer {
            known,
            life,
            going,
            course,
            lines,
        } = self;
        Ok(Explainer {
            known: known.with_interface(spec)?,
            life,
            going,
            course,
            lines,
        })
    }

    /// With the number of a life.
    fn numbered(self, number: u64) -> Explainer
        ensures { (state : Explaining) → Explains self state
            → Explains result (record state { number = number }) }
    {
        let Explainer {
            known,
            going,
            course,
            lines,
            ..
        } = self;
        Explainer {
            known,
            life: number,
            going,
            course,
            lines,
        }
    }

    /// At the beginning of a life.
    fn started(self, alloc: Global, begin: Begin) -> Result<Explainer, NoMemory>
        requires { begin.at < 10 ^ 15 }
        ensures { IfOk result
            (λ next. (state : Explaining) → Explains self state → Explains next (after state (Start begin))) }
    {
        let Explainer {
            known,
            life,
            lines,
            ..
        } = self;
        let managed = Managing::new(known.managed(alloc)?);
        let numbers = managed.numbers(alloc)?;
        let own = known.macs(alloc)?;
        Ok(Explainer {
            known,
            life,
            going: Going::new(alloc, begin.at, numbers),
            course: Course::Opening(Opening {
                managed,
                own,
                begin,
                reads: Vec::new(alloc),
            }),
            lines,
        })
    }

    /// At the beginning of a turn. The one before it is over.
    fn turned(
        self,
        alloc: Global,
        at: u64,
        event: Event,
        bytes: Vec<u8>,
    ) -> Result<Explainer, NoMemory>
        requires { at < 10 ^ 15 }
        ensures { IfOk result
            (λ next. (state : Explaining) (salt : ℕ)
            → Explains self state
            → Explains next (after state (Turn at salt event bytes.items))) }
    {
        let Explainer {
            known,
            life,
            going,
            course,
            lines,
        } = self;
        let rows = judged_rows(alloc, &going)?;
        let NextTurn { over, going } = next_turn(alloc, going, at, event, bytes);
        let course = course.closed(alloc, over, rows)?;
        Ok(Explainer {
            known,
            life,
            going,
            course,
            lines,
        })
    }

    /// At the end of a life. Its last turn is over.
    fn ended(self, alloc: Global) -> Result<Explainer, NoMemory>
        ensures { IfOk result
            (λ next. (state : Explaining) → Explains self state → Explains next (after state EndOfLife)) }
    {
        let Explainer {
            known,
            life,
            going,
            course,
            lines,
        } = self;
        let rows = judged_rows(alloc, &going)?;
        let course = course.closed(alloc, over(going), rows)?;
        let more = course.lines(alloc, life)?;
        let mut lines = lines;
        lines.extend_from_slice(&more)?;
        Ok(Explainer {
            known,
            life,
            going: Going::new(alloc, 0, Vec::new(alloc)),
            course: Course::Between,
            lines,
        })
    }

    /// With a file that was read.
    fn with_read(
        self,
        alloc: Global,
        name: &[u8],
        reading: FileReading,
    ) -> Result<Explainer, NoMemory>
        ensures { IfOk result
            (λ next. (state : Explaining)
            → Explains self state
            → Explains next (after state (Read name.now (reading_of reading)))) }
    {
        let Explainer {
            known,
            life,
            going,
            course,
            lines,
        } = self;
        let mut owned = Vec::new(alloc);
        owned.extend_from_slice(name)?;
        Ok(Explainer {
            known,
            life,
            going,
            course: course.with_read(owned, reading)?,
            lines,
        })
    }

    /// With another line of a turn.
    fn told(self, alloc: Global, line: ToldLine<'_>) -> Result<Explainer, NoMemory>
        requires follows { Follows (line_of line) }
        requires other { is_read (line_of line) ≡ false }
        ensures { IfOk result
            (λ next. (state : Explaining)
            → Explains self state
            → Explains next (record state { living = option_map (with_line (line_of line.entry)) state.living })) }
    {
        let Explainer {
            known,
            life,
            going,
            course,
            lines,
        } = self;
        what_goes_on_is_the_lifes();
        Ok(Explainer {
            known,
            life,
            going: going.told(alloc, line)?,
            course,
            lines,
        })
    }

    /// Before the first line after the head.
    fn new(alloc: Global, conf: Conf) -> Explainer
        requires { IsRead (configuration conf) }
        ensures { Explains result (first (configuration conf)) }
    {
        Explainer {
            known: Known::new(alloc, conf),
            life: 0,
            going: Going::new(alloc, 0, Vec::new(alloc)),
            course: Course::Between,
            lines: Vec::new(alloc),
        }
    }

    /// With a line more.
    fn taken(self, alloc: Global, line: ToldLine<'_>) -> Result<Explainer, NoMemory>
        requires { FitsTold (line_of line) }
        ensures { IfOk result
            (λ next. (state : Explaining)
            → Explains self state
            → Explains next (after state (line_of line.entry))) }
    {
        match line {
            ToldLine::Interface(spec) => self.with_interface(spec),
            ToldLine::Life(number) => Ok(self.numbered(number)),
            ToldLine::Start(begin) => self.started(alloc, begin),
            ToldLine::Turn {
                at,
                event,
                bytes,
                ..
            } => self.turned(alloc, at, event, bytes),
            ToldLine::EndOfLife => self.ended(alloc),
            ToldLine::Read { name, reading } => self.with_read(alloc, name, reading),
            other => self.told(alloc, other),
        }
    }
}

impl Follower for Explainer {
    ghost State = { Explaining };

    ghost Tells = { Explains };

    ghost first = { first };

    ghost after = { after };

    fn begin(alloc: Global, conf: Conf) -> Result<Explainer, NoMemory> {
        Ok(Explainer::new(alloc, conf))
    }

    fn follow(self, alloc: Global, line: ToldLine<'_>) -> Result<Explainer, NoMemory> {
        self.taken(alloc, line)
    }
}
