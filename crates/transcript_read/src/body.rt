//! The lines after the head of a transcript, read in one pass.
ghost use Rattle.std.specs.Prelude.{◌≡◌, None, Some, IfOk, IfErr, IfNone, IfSome};
ghost use Rattle.net_types.specs.LineReading.{Gives};
ghost use Rattle.transcript_lines.specs.Bounds.{FitsTold};
ghost use Rattle.transcript_lines.specs.Contents.{line_of};
ghost use Rattle.transcript_read.specs.Bodies.{IsFollowed, IsNoBody, StopsIn, given, step, take_line};
ghost use Rattle.transcript_read.specs.Contents.{ComesTo, Takes, no_state, reading_at, standing};
ghost use Rattle.transcript_read.specs.Following.{Reaches};
ghost use Rattle.transcript_read.specs.declared.body.BodyAnswer.TheVariants as answers;
ghost use Rattle.transcript_read.specs.Places.{next_ifaces};

use crate::follower::Follower;
use crate::place::Place;
use net_types::{NoMemory, split_at_byte};
use replay_text::Interfaces;
use std::alloc::Global;
use transcript_lines::{Role, ToldLine, a_text_spells_one_line, is_printable, read_line, role_of};

/// What the lines so far said.
#[derive(Drop)]
pub struct Body<F> {
    pub ifaces: Interfaces,
    pub place: Place,
    pub follower: F,
}

/// Why a text is no body of a transcript.
#[derive(Clone, Copy, PartialEq, Eq)]
pub enum BodyAnswer {
    /// The line with which no body goes on after those before it, counted from 1; where the text ends early, the line
    /// after its last.
    Bad { line: u64 },
    /// Memory ran out.
    NoMemory,
}

impl From<NoMemory> for BodyAnswer {
    ghost from_gives = { λ _ answer. answer ≡ answers.NoMemory };

    fn from(_error: NoMemory) -> BodyAnswer {
        BodyAnswer::NoMemory
    }
}

/// The interfaces after a line of this role.
fn with_role(ifaces: Interfaces, role: Role) -> Result<Option<Interfaces>, NoMemory>
    ensures { IfOk result (λ next. next ≡ next_ifaces ifaces role) }
{
    match role {
        Role::Interface(spec) => ifaces.with_next(spec),
        _ => Ok(Some(ifaces)),
    }
}

impl<F: Follower + Drop> Body<F> {
    /// With a line that was read.
    fn with_line(self, alloc: Global, line: ToldLine<'_>) -> Result<Option<Body<F>>, NoMemory>
        requires { FitsTold (line_of line) }
        ensures takes { IfOk result (Takes (take_line no_state (standing self) (line_of line.entry))) }
        ensures tells { IfOk result
            (λ next. (state : F.State)
            → F.Tells self.follower state
            → IfSome next (ComesTo F.Tells (take_line F.after (reading_at self state) (line_of line.entry)))) }
    {
        let role = role_of(&line);
        let Some(place) = self.place.next(role) else {
            return Ok(None);
        };
        let Some(ifaces) = with_role(self.ifaces, role)? else {
            return Ok(None);
        };
        let follower = self.follower.follow(alloc, line)?;
        Ok(Some(Body {
            ifaces,
            place,
            follower,
        }))
    }

    /// With the text of one line more.
    #[tactic(auto, unfolding(crate::specs::Bodies::step))]
    fn with_text(self, alloc: Global, text: &[u8]) -> Result<Option<Body<F>>, NoMemory>
        ensures takes { IfOk result (Takes (step no_state (standing self) text.now)) }
        ensures tells { IfOk result
            (λ next. (state : F.State)
            → F.Tells self.follower state
            → IfSome next (ComesTo F.Tells (step F.after (reading_at self state) text.now))) }
    {
        a_text_spells_one_line();
        if !is_printable(text) {
            return Ok(None);
        }
        match read_line(alloc, text)? {
            Some(line) => self.with_line(alloc, line),
            None => Ok(None),
        }
    }

    /// The follower, where a life has ended.
    #[tactic(auto, unfolding(crate::specs::Bodies::given))]
    fn end(self) -> Option<F>
        ensures none { IfNone result (given (standing self) ≡ None) }
        ensures same { IfSome result (λ f. f ≡ self.follower) }
        ensures some { IfSome result (λ _. (state : F.State) → given (reading_at self state) ≡ Some state) }
    {
        match self.place {
            Place::Between(_) => Some(self.follower),
            _ => None,
        }
    }
}

/// The lines taken one by one.
#[tactic(auto, using(crate::proofs::LoopLaws::goes_next))]
fn take_lines<F: Follower + Drop>(
    alloc: Global,
    start: Body<F>,
    text: &[u8],
) -> Result<F, BodyAnswer>
    ensures gives { IfOk result
        (λ f. (state : F.State)
        → F.Tells start.follower state
        → Reaches F.Tells (Gives (step F.after) given (reading_at start state) text.now) f) }
    ensures stops { IfErr result (StopsIn no_state (standing start) text.now) }
{
    let mut state = start;
    let mut rest = text;
    let mut line: u64 = 1;
    let _size = text.len();
    'lines: while !rest.is_empty() {
        let Some((words, others)) = split_at_byte(rest, b'\n') else {
            return Err(BodyAnswer::Bad { line });
        };
        let Some(next) = state.with_text(alloc, words)? else {
            return Err(BodyAnswer::Bad { line });
        };
        state = next;
        rest = others;
        line += 1;
    }
    match state.end() {
        Some(follower) => Ok(follower),
        None => Err(BodyAnswer::Bad { line }),
    }
}

/// The follower after all lines of a body: interfaces and lives, as a transcript has them after its head. One pass;
/// beside the follower there are kept the interfaces, the place of the last line, and the bytes of one line.
pub fn follow_body<F: Follower + Drop>(
    alloc: Global,
    follower: F,
    text: &[u8],
) -> Result<F, BodyAnswer>
    ensures found { IfOk result
        (λ end. (state : F.State)
        → F.Tells follower state
        → Reaches F.Tells (IsFollowed F.after text.now state) end) }
    ensures bad { IfErr result (λ answer. IsNoBody text.now answer) }
{
    let start = Body {
        ifaces: Interfaces::new(alloc),
        place: Place::Interfaces,
        follower,
    };
    a_text_spells_one_line();
    match take_lines(alloc, start, text) {
        Ok(follower) => Ok(follower),
        Err(answer) => Err(answer),
    }
}
