//! Schedules, read line by line.
ghost use Rattle.std.specs.Prelude.{◌≡◌, IfOk, IfErr, Some, None, option_map};
ghost use Rattle.net_types.specs.FirstBadLine.{IsSpelled};
ghost use Rattle.net_types.specs.declared.text_lines.LineFault.TheVariants as faults;
ghost use Rattle.lab_schedule.specs.ScheduleContent.{begun_of, head_of, schedule_of, state_of};
ghost use Rattle.lab_schedule.specs.ScheduleReading.{After, Reading, after_head, after_pool, after_start, conf_more, given, iface_more, nothing_read, step};
ghost use Rattle.lab_schedule.specs.Schedules as schedules;
ghost use Rattle.lab_schedule.specs.Schedules.{AnyCause, NamesBadLine, SpellsSchedule};

use crate::event::LabEvent;
use crate::lines::{event_of, is_on, lacks_feed, pool_of};
use crate::schedule::Schedule;
use lab_peer::Pool;
use net_types::{BadText, LineFault, LineState, NoMemory, TextFault, read_lines, strip_word};
use replay_text::{Interfaces, begin_of, spec_of};
use std::alloc::Global;
use world::Begin;

/// The first line of each schedule.
const HEAD: &[u8] = b"dhcpcd-lab 1";

/// What the lines before the pool said.
#[derive(Drop)]
pub struct Head {
    pub conf: Vec<u8>,
    pub ifaces: Interfaces,
}

/// What the lines from the first one to the start said, and what comes after it.
#[derive(Drop)]
pub struct Begun {
    pub head: Head,
    pub pool: Pool,
    pub begin: Begin,
    pub events: Vec<LabEvent>,
}

/// What the lines so far said.
#[derive(Drop)]
pub enum ScheduleState {
    /// No line.
    Nothing,
    /// The first line, and those of the configuration and of interfaces.
    Head(Head),
    /// These, and the pool.
    Pool(Head, Pool),
    /// These, the start, and what comes after it.
    Begun(Begun),
}

impl Head {
    fn new(alloc: Global) -> Head
        ensures { head_of result ≡ nothing_read }
    {
        Head {
            conf: Vec::new(alloc),
            ifaces: Interfaces::new(alloc),
        }
    }

    /// With a line of the configuration more, where no interface stands before it.
    fn with_conf(self, text: &[u8]) -> Result<Option<Head>, NoMemory>
        ensures { IfOk result (λ head. option_map head_of head ≡ conf_more (head_of self) text.now) }
    {
        if !self.ifaces.is_empty() || !lacks_feed(text) {
            return Ok(None);
        }
        let mut conf = self.conf;
        conf.extend_from_slice(text)?;
        conf.push(b'\n')?;
        Ok(Some(Head { conf, ..self }))
    }

    /// With an interface more.
    fn with_interface(self, rest: &[u8]) -> Result<Option<Head>, NoMemory>
        ensures { IfOk result (λ head. option_map head_of head ≡ iface_more (head_of self) rest.now) }
    {
        let Some(spec) = spec_of(rest) else {
            return Ok(None);
        };
        match self.ifaces.with_next(spec)? {
            Some(ifaces) => Ok(Some(Head { ifaces, ..self })),
            None => Ok(None),
        }
    }

    /// With the next line.
    #[tactic(auto, unfolding(crate::specs::ScheduleReading::after_head))]
    fn take(self, line: &[u8]) -> Result<Option<ScheduleState>, NoMemory>
        ensures { IfOk result (λ state. option_map state_of state ≡ after_head (head_of self) line.now) }
    {
        if let Some(text) = strip_word(line, b"c:") {
            return Ok(self.with_conf(text)?.map(|head| ScheduleState::Head(head)));
        }
        if let Some(rest) = strip_word(line, b"if ") {
            return Ok(
                self.with_interface(rest)?
                    .map(|head| ScheduleState::Head(head)),
            );
        }
        let Some(rest) = strip_word(line, b"pool ") else {
            return Ok(None);
        };
        match pool_of(rest) {
            Some(pool) => Ok(Some(ScheduleState::Pool(self, pool))),
            None => Ok(None),
        }
    }

    /// With the pool and the next line.
    #[tactic(auto, unfolding(crate::specs::ScheduleReading::after_pool))]
    fn take_start(
        self,
        alloc: Global,
        pool: Pool,
        line: &[u8],
    ) -> Result<Option<ScheduleState>, NoMemory>
        ensures { IfOk result (λ state. option_map state_of state ≡ after_pool (head_of self) pool line.now) }
    {
        let Some(rest) = strip_word(line, b"start ") else {
            return Ok(None);
        };
        match begin_of(alloc, self.ifaces.len(), rest)? {
            Some(begin) => Ok(Some(ScheduleState::Begun(Begun {
                head: self,
                pool,
                begin,
                events: Vec::new(alloc),
            }))),
            None => Ok(None),
        }
    }
}

impl Begun {
    /// With the next line.
    #[tactic(auto, unfolding(crate::specs::ScheduleReading::after_start))]
    fn take(self, line: &[u8]) -> Result<Option<ScheduleState>, NoMemory>
        ensures { IfOk result (λ state. option_map state_of state ≡ after_start (begun_of self) line.now) }
    {
        let Some(event) = event_of(line) else {
            return Ok(None);
        };
        if !is_on(self.head.ifaces.len(), event) {
            return Ok(None);
        }
        let mut events = self.events;
        events.push(event)?;
        Ok(Some(ScheduleState::Begun(Begun { events, ..self })))
    }
}

/// The state that there is, or the line is bad.
fn taken(state: Option<ScheduleState>) -> Result<ScheduleState, LineFault<BadText>>
    ensures yes { IfOk result (λ next. state ≡ Some next) }
    ensures no { IfErr result (λ fault. (state ≡ None) × (fault ≡ faults.Bad (record {}))) }
{
    match state {
        Some(next) => Ok(next),
        None => Err(LineFault::Bad(BadText)),
    }
}

impl LineState for ScheduleState {
    type Value = Schedule;

    type Cause = BadText;

    ghost State = { Reading };

    ghost Said = { schedules.Schedule };

    ghost state = { state_of };

    ghost said = { schedule_of };

    ghost step = { step };

    ghost given = { given };

    ghost cause = { λ reading front. record {} };

    ghost Spells = { SpellsSchedule };

    ghost After = { After };

    ghost Why = { AnyCause };

    fn take(self, alloc: Global, line: &[u8]) -> Result<ScheduleState, LineFault<BadText>> {
        match self {
            ScheduleState::Nothing => {
                if line == HEAD {
                    Ok(ScheduleState::Head(Head::new(alloc)))
                } else {
                    Err(LineFault::Bad(BadText))
                }
            }
            ScheduleState::Head(head) => taken(head.take(line)?),
            ScheduleState::Pool(head, pool) => taken(head.take_start(alloc, pool, line)?),
            ScheduleState::Begun(begun) => taken(begun.take(line)?),
        }
    }

    fn unended(&self, _rest: &[u8]) -> BadText {
        BadText
    }

    fn end(self, _alloc: Global) -> Result<Schedule, LineFault<BadText>> {
        match self {
            ScheduleState::Nothing => Err(LineFault::Bad(BadText)),
            ScheduleState::Head(_) => Err(LineFault::Bad(BadText)),
            ScheduleState::Pool(_, _) => Err(LineFault::Bad(BadText)),
            ScheduleState::Begun(begun) => Ok(Schedule {
                conf: begun.head.conf,
                ifaces: begun.head.ifaces.into_vec(),
                pool: begun.pool,
                begin: begun.begin,
                events: begun.events,
            }),
        }
    }
}

/// Why a text is no schedule.
#[derive(Clone, Copy, PartialEq, Eq)]
pub enum ScheduleAnswer {
    /// The first line with which no schedule goes on, counted from 1; where the text ends before its start, the line
    /// after its last.
    Bad { line: u64 },
    /// Memory ran out.
    NoMemory,
}

/// The schedule that the text spells, or the first bad line of a text that spells none. One pass, linear in the text.
pub fn read_schedule(alloc: Global, text: &[u8]) -> Result<Schedule, ScheduleAnswer>
    ensures found { IfOk result (λ schedule. IsSpelled SpellsSchedule text.now (schedule_of schedule)) }
    ensures bad { IfErr result (NamesBadLine text.now) }
{
    match read_lines(alloc, ScheduleState::Nothing, text) {
        Ok(schedule) => Ok(schedule),
        Err(TextFault::Bad { line, cause: _ }) => Err(ScheduleAnswer::Bad { line: line as u64 }),
        Err(TextFault::NoMemory) => Err(ScheduleAnswer::NoMemory),
    }
}
