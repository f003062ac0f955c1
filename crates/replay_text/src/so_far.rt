//! What the lines of a script so far said.
ghost use Rattle.std.specs.Prelude.{◌≡◌, ◌++◌, ◌≤◌, IfOk, IfErr, Some, map, option_map, length};
ghost use Rattle.net_types.specs.LineReading.{Refuses};
ghost use Rattle.net_types.specs.TextLines.{Whole, End};
ghost use Rattle.script_lines.specs.Carriers.{begin_at};
ghost use Rattle.script_lines.specs.CrashReading.{crash_at};
ghost use Rattle.script_lines.specs.FileReading.{file_at};
ghost use Rattle.script_lines.specs.KindTests.{is_listed};
ghost use Rattle.script_lines.specs.LineReading.{spec_at, fail_at};
ghost use Rattle.script_lines.specs.PollReading.{poll_at};
ghost use Rattle.script_lines.specs.TurnReading.{turn_at};
ghost use Rattle.row_texts.specs.RowReading.{row_at};
ghost use Rattle.script_lines.specs.ScriptContent.{file_of, given_of, crash_of, life_of};
ghost use Rattle.replay_text.specs.LinesRead.{last_life, nothing_read};
ghost use Rattle.replay_text.specs.NextWords.{before_lives, before_polls, before_fails, before_files, before_rows, before_interfaces, may_begin, has_begun, is_going_on, may_come};
ghost use Rattle.replay_text.specs.NextLines.{after_blank, begun, with_turn, with_crash, with_start, with_last, with_line};
ghost use Rattle.replay_text.specs.ScriptReading.{step_after, cause_of, given_after};
ghost use Rattle.replay_text.specs.SoFar.{life_read, lines_read, script_said};
ghost use Rattle.script_lines.specs.declared.words.Word.TheVariants as Word;

use crate::faults::ScriptCause;
use crate::unlike::{Interfaces, MOST_INTERFACES, UnlikeFiles, UnlikeRows};
use net_types::{IfSpec, LineFault, NoMemory, strip_word};
use row_texts::row_of;
use script_lines::{
    Clock, CrashLine, FileLine, LifeLines, Script, TurnLine, Word, begin_of, crash_of, fail_of,
    file_of, is_text, poll_of, spec_of, turn_of, word_of,
};
use script_model::FailLine;
use std::alloc::Global;
use world::{Begin, Event, HostRow, Poll};

/// The last life so far, and what it knows of moments.
#[derive(Drop)]
pub struct LastLife {
    pub life: LifeLines,
    pub clock: Clock,
}

/// What the lines so far said.
#[derive(Drop)]
pub struct LinesSoFar {
    pub conf: Vec<u8>,
    pub ifaces: Interfaces,
    pub rows: UnlikeRows,
    pub files: UnlikeFiles,
    pub fails: Vec<FailLine>,
    pub polls: Vec<Option<Poll>>,
    /// The lives before the last one.
    pub past: Vec<LifeLines>,
    pub last: Option<LastLife>,
}

fn may_begin(last: &Option<LastLife>) -> bool
    ensures { result ≡ may_begin (option_map life_read last.now) }
{
    match last {
        None => true,
        Some(last) => last.life.crash.is_some(),
    }
}

fn has_begun(last: &Option<LastLife>) -> bool
    ensures { result ≡ has_begun (option_map life_read last.now) }
{
    match last {
        None => false,
        Some(last) => last.life.crash.is_none(),
    }
}

fn is_going_on(last: &Option<LastLife>) -> bool
    ensures { result ≡ is_going_on (option_map life_read last.now) }
{
    match last {
        None => false,
        Some(last) => last.life.crash.is_none() && !last.clock.is_over(),
    }
}

fn is_listed(count: u32, event: Event) -> bool
    ensures { result ≡ is_listed count event }
{
    match event {
        Event::Frame { iface, .. } => iface <= count,
        Event::Carrier { iface, .. } => iface <= count,
        Event::Duplicate { iface, .. } => iface <= count,
        Event::Release { iface } => iface <= count,
        Event::Rebind { iface } => iface <= count,
        Event::Stop => true,
        Event::Quiet => true,
        Event::End => true,
    }
}

fn interface_in(rest: &[u8]) -> Option<IfSpec>
    ensures { result ≡ after_blank spec_at rest.now }
{
    spec_of(strip_word(rest, b" ")?)
}

fn row_in(rest: &[u8]) -> Option<HostRow>
    ensures { result ≡ after_blank row_at rest.now }
{
    row_of(strip_word(rest, b" ")?)
}

fn file_in(alloc: Global, rest: &[u8]) -> Result<Option<FileLine>, NoMemory>
    ensures { IfOk result (λ o. option_map file_of o ≡ after_blank file_at rest.now) }
{
    match strip_word(rest, b" ") {
        Some(words) => file_of(alloc, words),
        None => Ok(None),
    }
}

fn fail_in(rest: &[u8]) -> Option<FailLine>
    ensures { result ≡ after_blank fail_at rest.now }
{
    fail_of(strip_word(rest, b" ")?)
}

fn poll_in(rest: &[u8]) -> Option<Option<Poll>>
    ensures { result ≡ after_blank poll_at rest.now }
{
    poll_of(strip_word(rest, b" ")?)
}

fn begin_in(alloc: Global, count: u32, rest: &[u8]) -> Result<Option<Begin>, NoMemory>
    requires { count ≤ 64 }
    ensures { IfOk result (λ o. o ≡ after_blank (begin_at count) rest.now) }
{
    match strip_word(rest, b" ") {
        Some(words) => begin_of(alloc, count, words),
        None => Ok(None),
    }
}

fn turn_in(alloc: Global, rest: &[u8]) -> Result<Option<TurnLine>, NoMemory>
    ensures { IfOk result (λ o. option_map given_of o ≡ after_blank turn_at rest.now) }
{
    match strip_word(rest, b" ") {
        Some(words) => turn_of(alloc, words),
        None => Ok(None),
    }
}

fn crash_in(rest: &[u8]) -> Option<CrashLine>
    ensures { option_map crash_of result ≡ after_blank crash_at rest.now }
{
    crash_of(strip_word(rest, b" ")?)
}

impl LastLife {
    fn new(alloc: Global, begin: Begin) -> LastLife
        ensures { life_read result ≡ begun begin }
    {
        LastLife {
            life: LifeLines {
                begin,
                turns: Vec::new(alloc),
                crash: None,
            },
            clock: Clock::new(begin.at),
        }
    }

    fn with_turn(self, turn: TurnLine) -> Result<LastLife, NoMemory>
        ensures { IfOk result (λ last. life_read last ≡ with_turn (given_of turn) (life_read self)) }
    {
        let clock = self.clock.after(turn.wake);
        let LifeLines {
            begin,
            mut turns,
            crash,
        } = self.life;
        turns.push(turn)?;
        Ok(LastLife {
            life: LifeLines {
                begin,
                turns,
                crash,
            },
            clock,
        })
    }

    fn with_crash(self, crash: CrashLine) -> LastLife
        ensures { life_read result ≡ with_crash (crash_of crash) (life_read self) }
    {
        LastLife {
            life: LifeLines {
                crash: Some(crash),
                ..self.life
            },
            clock: self.clock,
        }
    }
}

/// The lives with the last one.
fn with_last_of(past: Vec<LifeLines>, last: Option<LastLife>) -> Result<Vec<LifeLines>, NoMemory>
    ensures { IfOk result
        (λ lives. map life_of lives.items ≡ map life_of past.items ++ last_life (option_map life_read last)) }
{
    let mut lives = past;
    match last {
        Some(last) => {
            lives.push(last.life)?;
            Ok(lives)
        }
        None => Ok(lives),
    }
}

fn turned(last: Option<LastLife>, turn: TurnLine) -> Result<Option<LastLife>, NoMemory>
    ensures { IfOk result
        (λ o. option_map life_read o ≡ option_map (with_turn (given_of turn)) (option_map life_read last)) }
{
    match last {
        Some(last) => {
            let last = last.with_turn(turn)?;
            Ok(Some(last))
        }
        None => Ok(None),
    }
}

fn crashed(last: Option<LastLife>, crash: CrashLine) -> Option<LastLife>
    ensures { option_map life_read result ≡ option_map (with_crash (crash_of crash)) (option_map life_read last) }
{
    match last {
        Some(last) => Some(last.with_crash(crash)),
        None => None,
    }
}

impl LinesSoFar {
    /// Before the lines after the first one.
    pub fn new(alloc: Global) -> LinesSoFar
        ensures { lines_read result ≡ nothing_read }
    {
        LinesSoFar {
            conf: Vec::new(alloc),
            ifaces: Interfaces::new(alloc),
            rows: UnlikeRows::new(alloc),
            files: UnlikeFiles::new(alloc),
            fails: Vec::new(alloc),
            polls: Vec::new(alloc),
            past: Vec::new(alloc),
            last: None,
        }
    }

    fn before_lives(&self) -> bool
        ensures { result ≡ before_lives (lines_read self.now) }
    {
        self.last.is_none()
    }

    fn before_polls(&self) -> bool
        ensures { result ≡ before_polls (lines_read self.now) }
    {
        self.polls.is_empty() && self.before_lives()
    }

    fn before_fails(&self) -> bool
        ensures { result ≡ before_fails (lines_read self.now) }
    {
        self.fails.is_empty() && self.before_polls()
    }

    fn before_files(&self) -> bool
        ensures { result ≡ before_files (lines_read self.now) }
    {
        self.files.is_empty() && self.before_fails()
    }

    fn before_rows(&self) -> bool
        ensures { result ≡ before_rows (lines_read self.now) }
    {
        self.rows.is_empty() && self.before_files()
    }

    fn before_interfaces(&self) -> bool
        ensures { result ≡ before_interfaces (lines_read self.now) }
    {
        self.ifaces.len() == 0 && self.before_rows()
    }

    /// Whether a line of this word may come next.
    fn may_come(&self, word: Word) -> bool
        ensures { result ≡ may_come (lines_read self.now) word }
    {
        match word {
            Word::Head => false,
            Word::Conf => self.before_interfaces(),
            Word::Interface => self.ifaces.len() < MOST_INTERFACES && self.before_rows(),
            Word::Row => self.before_files(),
            Word::File => self.before_fails(),
            Word::Fail => self.before_polls(),
            Word::Hook => self.before_lives(),
            Word::Start => may_begin(&self.last),
            Word::Turn => is_going_on(&self.last),
            Word::Crash => has_begun(&self.last),
        }
    }

    #[tactic(auto, unfolding(crate::specs::NextLines::with_line))]
    fn with_conf(self, rest: &[u8]) -> Result<Option<LinesSoFar>, NoMemory>
        ensures { IfOk result (λ o. option_map lines_read o ≡ with_line (lines_read self) Word.Conf rest.now) }
    {
        let mut conf = self.conf;
        conf.extend_from_slice(rest)?;
        conf.push(b'\n')?;
        Ok(Some(LinesSoFar { conf, ..self }))
    }

    #[tactic(auto, unfolding(crate::specs::NextLines::with_line))]
    fn with_interface(self, rest: &[u8]) -> Result<Option<LinesSoFar>, NoMemory>
        ensures { IfOk result (λ o. option_map lines_read o ≡ with_line (lines_read self) Word.Interface rest.now) }
    {
        let Some(spec) = interface_in(rest) else {
            return Ok(None);
        };
        match self.ifaces.with_next(spec)? {
            Some(ifaces) => Ok(Some(LinesSoFar { ifaces, ..self })),
            None => Ok(None),
        }
    }

    #[tactic(auto, unfolding(crate::specs::NextLines::with_line))]
    fn with_row(self, rest: &[u8]) -> Result<Option<LinesSoFar>, NoMemory>
        ensures { IfOk result (λ o. option_map lines_read o ≡ with_line (lines_read self) Word.Row rest.now) }
    {
        let Some(row) = row_in(rest) else {
            return Ok(None);
        };
        match self.rows.with_new(row)? {
            Some(rows) => Ok(Some(LinesSoFar { rows, ..self })),
            None => Ok(None),
        }
    }

    #[tactic(auto, unfolding(crate::specs::NextLines::with_line))]
    fn with_file(self, alloc: Global, rest: &[u8]) -> Result<Option<LinesSoFar>, NoMemory>
        ensures { IfOk result (λ o. option_map lines_read o ≡ with_line (lines_read self) Word.File rest.now) }
    {
        let Some(file) = file_in(alloc, rest)? else {
            return Ok(None);
        };
        match self.files.with_new(alloc, file)? {
            Some(files) => Ok(Some(LinesSoFar { files, ..self })),
            None => Ok(None),
        }
    }

    #[tactic(auto, unfolding(crate::specs::NextLines::with_line))]
    fn with_fail(self, rest: &[u8]) -> Result<Option<LinesSoFar>, NoMemory>
        ensures { IfOk result (λ o. option_map lines_read o ≡ with_line (lines_read self) Word.Fail rest.now) }
    {
        let Some(fail) = fail_in(rest) else {
            return Ok(None);
        };
        let mut fails = self.fails;
        fails.push(fail)?;
        Ok(Some(LinesSoFar { fails, ..self }))
    }

    #[tactic(auto, unfolding(crate::specs::NextLines::with_line))]
    fn with_poll(self, rest: &[u8]) -> Result<Option<LinesSoFar>, NoMemory>
        ensures { IfOk result (λ o. option_map lines_read o ≡ with_line (lines_read self) Word.Hook rest.now) }
    {
        let Some(answer) = poll_in(rest) else {
            return Ok(None);
        };
        let mut polls = self.polls;
        polls.push(answer)?;
        Ok(Some(LinesSoFar { polls, ..self }))
    }

    /// With a life more.
    fn with_begin(self, alloc: Global, begin: Begin) -> Result<LinesSoFar, NoMemory>
        ensures { IfOk result (λ lines. lines_read lines ≡ with_start (lines_read self) begin) }
    {
        let past = with_last_of(self.past, self.last)?;
        let last = Some(LastLife::new(alloc, begin));
        Ok(LinesSoFar { past, last, ..self })
    }

    #[tactic(auto, unfolding(crate::specs::NextLines::with_line))]
    fn with_start(self, alloc: Global, rest: &[u8]) -> Result<Option<LinesSoFar>, NoMemory>
        ensures { IfOk result (λ o. option_map lines_read o ≡ with_line (lines_read self) Word.Start rest.now) }
    {
        let Some(begin) = begin_in(alloc, self.ifaces.len(), rest)? else {
            return Ok(None);
        };
        let lines = self.with_begin(alloc, begin)?;
        Ok(Some(lines))
    }

    /// With a turn more of the last life.
    fn with_given(self, turn: TurnLine) -> Result<LinesSoFar, NoMemory>
        ensures { IfOk result (λ lines. lines_read lines ≡ with_last (lines_read self) (with_turn (given_of turn))) }
    {
        let last = turned(self.last, turn)?;
        Ok(LinesSoFar { last, ..self })
    }

    #[tactic(auto, unfolding(crate::specs::NextLines::with_line))]
    fn with_turn(self, alloc: Global, rest: &[u8]) -> Result<Option<LinesSoFar>, NoMemory>
        ensures { IfOk result (λ o. option_map lines_read o ≡ with_line (lines_read self) Word.Turn rest.now) }
    {
        let Some(turn) = turn_in(alloc, rest)? else {
            return Ok(None);
        };
        if !is_listed(self.ifaces.len(), turn.wake.event) {
            return Ok(None);
        }
        let lines = self.with_given(turn)?;
        Ok(Some(lines))
    }

    #[tactic(auto, unfolding(crate::specs::NextLines::with_line))]
    fn with_crash(self, rest: &[u8]) -> Option<LinesSoFar>
        ensures { option_map lines_read result ≡ with_line (lines_read self) Word.Crash rest.now }
    {
        let crash = crash_in(rest)?;
        let last = crashed(self.last, crash);
        Some(LinesSoFar { last, ..self })
    }

    /// With a line more, by its word and what follows it.
    #[tactic(auto, unfolding(crate::specs::NextLines::with_line))]
    fn with_line(
        self,
        alloc: Global,
        word: Word,
        rest: &[u8],
    ) -> Result<Option<LinesSoFar>, NoMemory>
        ensures { IfOk result (λ o. option_map lines_read o ≡ with_line (lines_read self) word rest.now) }
    {
        match word {
            Word::Head => Ok(None),
            Word::Conf => self.with_conf(rest),
            Word::Interface => self.with_interface(rest),
            Word::Row => self.with_row(rest),
            Word::File => self.with_file(alloc, rest),
            Word::Fail => self.with_fail(rest),
            Word::Hook => self.with_poll(rest),
            Word::Start => self.with_start(alloc, rest),
            Word::Turn => self.with_turn(alloc, rest),
            Word::Crash => Ok(self.with_crash(rest)),
        }
    }

    /// With the next line.
    #[tactic(auto, unfolding(crate::specs::ScriptReading::step_after))]
    pub fn take(self, alloc: Global, line: &[u8]) -> Result<LinesSoFar, LineFault<ScriptCause>>
        ensures taken { IfOk result (λ next. step_after (lines_read self) line.now ≡ Some (lines_read next)) }
        ensures bad { IfErr result
            (λ fault. Refuses (step_after (lines_read self) line.now)
            (cause_of (Some (lines_read self)) (Whole line.now)) fault) }
    {
        if !is_text(line) {
            return Err(LineFault::Bad(ScriptCause::NotText));
        }
        let Some((word, rest)) = word_of(line) else {
            return Err(LineFault::Bad(ScriptCause::Word));
        };
        if !self.may_come(word) {
            return Err(LineFault::Bad(ScriptCause::Order));
        }
        match self.with_line(alloc, word, rest)? {
            Some(next) => Ok(next),
            None => Err(LineFault::Bad(ScriptCause::Form)),
        }
    }

    /// The script that ends here.
    pub fn end(self) -> Result<Script, LineFault<ScriptCause>>
        ensures ended { IfOk result (λ script. given_after (lines_read self) ≡ Some (script_said script)) }
        ensures early { IfErr result
            (λ fault. Refuses (given_after (lines_read self)) (cause_of (Some (lines_read self)) End) fault) }
    {
        if self.before_lives() {
            return Err(LineFault::Bad(ScriptCause::Order));
        }
        let lives = with_last_of(self.past, self.last)?;
        Ok(Script {
            conf: self.conf,
            ifaces: self.ifaces.into_vec(),
            rows: self.rows.into_vec(),
            files: self.files.into_vec(),
            fails: self.fails,
            polls: self.polls,
            lives,
        })
    }
}
