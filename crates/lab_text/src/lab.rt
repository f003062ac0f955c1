//! A lab between two lines of its schedule.
ghost use Rattle.std.specs.Prelude.{◌≡◌, ◌<◌, ◌^◌, [], ◌∷◌, IfOk, OnOk, None, max};
ghost use Rattle.machine.specs.Moment.{moment_of};
ghost use Rattle.settings.specs.Fitting.{AreManaged};
ghost use Rattle.iface_core.specs.Inputs.{bytes_of, event_of};
ghost use Rattle.lab_schedule.specs.ScheduleContent.{schedule_of};
ghost use Rattle.lab_schedule.specs.declared.event.LabEvent.TheVariants.{Give, Hear};
ghost use Rattle.lab_model.specs.Exchanges.{xids_unlike};
ghost use Rattle.lab_model.specs.LabLines.{At, lines_of};
ghost use Rattle.lab_model.specs.Labs.{clients_turned, lab_opened, lab_step, no_lab, peer_goes, peer_heard, raised, turn_with};
ghost use Rattle.lab_peer.specs.Hearing.{hears};
ghost use Rattle.lab_text.specs.Living.{Says};
ghost use Rattle.lab_text.specs.Noting.{are_unlike};

use crate::exchanges::Xids;
use crate::frames::Frames;
use crate::leases::Leases;
use crate::opening::beginnings;
use client_core::{Core, Opened, Stepped, Turn, TurnInput, core_open, ifaces, step};
use lab_peer::Peer;
use lab_schedule::{LabEvent, Schedule};
use line_grammar::append_line;
use machine::clamp_moment;
use net_types::{IfIndex, NoMemory};
use settings::Managed;
use std::alloc::Global;
use std::marker::Model;

/// The clients, their peer, the frames so far, the leases that were held last, and the moment of the last line.
#[derive(Drop)]
pub struct Lab {
    core: Core,
    peer: Peer,
    frames: Frames,
    leases: Leases,
    /// In milliseconds since 1970.
    clock: u64,
}

impl Model for Lab {
    ghost use Rattle.std.specs.Prelude.{◌<◌, ◌^◌};
    ghost use Rattle.lab_model.specs.Labs as model;

    ghost Value = { model.Lab };

    ghost view = { λ lab.
        record {
          client = lab.core;
          peer = lab.peer;
          sent = lab.frames.sent;
          made = lab.frames.made;
          clock = lab.clock;
        } };

    ghost invariant = { λ lab. lab.clock < 10 ^ 15 };
}

/// A frame of the peer that comes in on an interface.
#[derive(Clone, Copy)]
struct Given {
    at: u64,
    salt: u64,
    iface: IfIndex,
    /// Its number.
    frame: u64,
}

/// A moment as it counts: moments end, and don't go back.
fn raised(clock: u64, at: u64) -> u64
    requires { clock < 10 ^ 15 }
    ensures value { result ≡ max clock (moment_of at) }
    ensures below { result < 10 ^ 15 }
{
    clock.max(clamp_moment(at))
}

/// Appends the line of a moment.
fn say_moment(at: u64, text: &mut Vec<u8>) -> Result<(), NoMemory>
    ensures { OnOk result (Says (At at ∷ []) text.old.items text.new.items) }
{
    append_line(b"at ", &at, text)
}

impl Lab {
    /// The start of a schedule's lab, and its lines. `managed` are those of its interfaces that the clients manage.
    pub fn open(
        alloc: Global,
        managed: &[Managed],
        schedule: &Schedule,
        text: &mut Vec<u8>,
    ) -> Result<Lab, NoMemory>
        requires { AreManaged managed.now }
        ensures lab { IfOk result (λ lab. lab ≡ (lab_opened managed.now (schedule_of schedule.now)).lab) }
        ensures says { OnOk result
            (Says
            (lines_of (no_lab schedule.now.pool) (lab_opened managed.now (schedule_of schedule.now)))
            text.old.items text.new.items) }
    {
        let beginnings = beginnings(alloc, managed)?;
        let opened = core_open(alloc, beginnings, &schedule.ifaces, schedule.begin)?;
        let Opened { core, outs, .. } = opened;
        let clock = clamp_moment(schedule.begin.at);
        say_moment(clock, text)?;
        let frames = Frames::new(alloc).send(alloc, outs.sends, text)?;
        let leases = Leases::new(alloc).say(alloc, ifaces(&core), text)?;
        Ok(Lab {
            core,
            peer: Peer::open(alloc, schedule.pool),
            frames,
            leases,
            clock,
        })
    }

    /// Whether its clients used a transaction number again.
    pub fn xids(&self) -> Xids
        ensures { are_unlike result ≡ xids_unlike self.now.sent }
    {
        self.frames.xids()
    }

    /// The clients have a turn.
    fn turn(
        self,
        alloc: Global,
        at: u64,
        salt: u64,
        input: TurnInput<'_>,
        text: &mut Vec<u8>,
    ) -> Result<Lab, NoMemory>
        ensures lab { IfOk result
            (λ lab. lab
            ≡
            (clients_turned
            (turn_with (raised at self) salt (event_of input.entry) (bytes_of input.entry)) self).lab) }
        ensures says { OnOk result
            (Says
            (lines_of self
            (clients_turned
            (turn_with (raised at self) salt (event_of input.entry) (bytes_of input.entry)) self))
            text.old.items text.new.items) }
    {
        let Lab {
            core,
            peer,
            frames,
            leases,
            clock,
        } = self;
        let clock = raised(clock, at);
        let turn = Turn {
            at: clock,
            salt,
            unsent: 0,
            input,
        };
        let stepped = step(core, turn)?;
        let Stepped { core, outs, .. } = stepped;
        say_moment(clock, text)?;
        let frames = frames.send(alloc, outs.sends, text)?;
        let leases = leases.say(alloc, ifaces(&core), text)?;
        Ok(Lab {
            core,
            peer,
            frames,
            leases,
            clock,
        })
    }

    /// The peer's frame of a number comes in on an interface.
    fn give(self, alloc: Global, given: Given, text: &mut Vec<u8>) -> Result<Lab, NoMemory>
        ensures lab { IfOk result
            (λ lab. lab ≡ (lab_step (Give given.at given.salt given.iface given.frame) self).lab) }
        ensures says { OnOk result
            (Says
            (lines_of self (lab_step (Give given.at given.salt given.iface given.frame) self)) text.old.items
            text.new.items) }
    {
        match self.frames.made(given.frame) {
            Some(frame) => {
                let bytes = frame.to_vec(alloc)?;
                let input = TurnInput::Frame {
                    iface: given.iface.number,
                    bytes: &bytes,
                };
                self.turn(alloc, given.at, given.salt, input, text)
            }
            None => self.turn(alloc, given.at, given.salt, TurnInput::Quiet, text),
        }
    }

    /// The peer hears a frame, and answers or doesn't.
    fn hear_frame(
        self,
        alloc: Global,
        at: u64,
        bytes: &[u8],
        text: &mut Vec<u8>,
    ) -> Result<Lab, NoMemory>
        ensures lab { IfOk result
            (λ lab. lab ≡ (peer_goes (raised at self) (hears (raised at self) bytes.now self.peer) self).lab) }
        ensures says { OnOk result
            (Says
            (lines_of self (peer_goes (raised at self) (hears (raised at self) bytes.now self.peer) self))
            text.old.items text.new.items) }
    {
        let Lab {
            core,
            mut peer,
            frames,
            leases,
            clock,
        } = self;
        let clock = raised(clock, at);
        let made = peer.hear(alloc, bytes, clock)?;
        say_moment(clock, text)?;
        let frames = frames.make(made, text)?;
        let leases = leases.say(alloc, ifaces(&core), text)?;
        Ok(Lab {
            core,
            peer,
            frames,
            leases,
            clock,
        })
    }

    /// The peer hears nothing.
    fn hear_nothing(self, alloc: Global, at: u64, text: &mut Vec<u8>) -> Result<Lab, NoMemory>
        ensures lab { IfOk result (λ lab. lab ≡ (peer_heard (raised at self) None self).lab) }
        ensures says { OnOk result
            (Says (lines_of self (peer_heard (raised at self) None self)) text.old.items text.new.items) }
    {
        let Lab {
            core,
            peer,
            frames,
            leases,
            clock,
        } = self;
        let clock = raised(clock, at);
        say_moment(clock, text)?;
        let leases = leases.say(alloc, ifaces(&core), text)?;
        Ok(Lab {
            core,
            peer,
            frames,
            leases,
            clock,
        })
    }

    /// The peer hears the clients' frame of a number.
    #[tactic(auto, using(crate::proofs::NumberedFrames::heard_some, crate::proofs::NumberedFrames::heard_none))]
    fn hear(self, alloc: Global, at: u64, frame: u64, text: &mut Vec<u8>) -> Result<Lab, NoMemory>
        ensures lab { IfOk result (λ lab. lab ≡ (lab_step (Hear at frame) self).lab) }
        ensures says { OnOk result
            (Says (lines_of self (lab_step (Hear at frame) self)) text.old.items text.new.items) }
    {
        match self.frames.sent(frame) {
            Some(bytes) => {
                let bytes = bytes.to_vec(alloc)?;
                self.hear_frame(alloc, at, &bytes, text)
            }
            None => self.hear_nothing(alloc, at, text),
        }
    }

    /// What comes next in the schedule, and its lines.
    pub fn next(self, alloc: Global, event: LabEvent, text: &mut Vec<u8>) -> Result<Lab, NoMemory>
        ensures lab { IfOk result (λ lab. lab ≡ (lab_step event self).lab) }
        ensures says { OnOk result (Says (lines_of self (lab_step event self)) text.old.items text.new.items) }
    {
        match event {
            LabEvent::Tick { at, salt } => self.turn(alloc, at, salt, TurnInput::Quiet, text),
            LabEvent::Carrier {
                at,
                salt,
                iface,
                up,
            } => {
                let input = TurnInput::Carrier {
                    iface: iface.number,
                    up,
                };
                self.turn(alloc, at, salt, input, text)
            }
            LabEvent::Release { at, salt, iface } => {
                let input = TurnInput::Release {
                    iface: iface.number,
                };
                self.turn(alloc, at, salt, input, text)
            }
            LabEvent::Give {
                at,
                salt,
                iface,
                frame,
            } => {
                let given = Given {
                    at,
                    salt,
                    iface,
                    frame,
                };
                self.give(alloc, given, text)
            }
            LabEvent::Hear { at, frame } => self.hear(alloc, at, frame, text),
        }
    }
}
