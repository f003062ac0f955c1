//! The turns of the life.

ghost use Rattle.std.specs.Prelude.{◌≡◌, ◌≤◌, ◌<◌, ◌+◌, ◌^◌, ◌++◌, map, IfOk, OnOk};
ghost use Rattle.replay_text.specs.ScriptContent.{given_of};
ghost use Rattle.made_script.specs.MadeTurns.{quiet_given, wave_turn, wave_given, round_given, made_turns};

use crate::frames::{ReplyTo, SALT, reply_turn};
use crate::hosts::INTERFACES;
use net_types::NoMemory;
use replay_text::TurnLine;
use server_data::ReplyKind;
use std::alloc::Global;
use world::{Event, Wake};

/// The most renewals that a script has.
pub const MOST_ROUNDS: u64 = 100;
/// The moment of the first turn, in which nothing comes.
pub(crate) const FIRST_TURN: u64 = 1;
/// From one renewal to the next, in milliseconds: a little more than half of a lease.
pub(crate) const ROUND: u64 = 1_800_200;

/// A message to each interface, a millisecond after the one before.
#[derive(Clone, Copy, PartialEq, Eq)]
pub(crate) struct Wave {
    pub(crate) kind: ReplyKind,
    /// The message to interface `i` comes `i` milliseconds after this moment.
    pub(crate) after: u64,
    /// Its transaction number is `i` and so many more.
    pub(crate) ahead: u32,
}

pub(crate) const OFFERS: Wave = Wave {
    kind: ReplyKind::Offer,
    after: 100,
    ahead: 0,
};

pub(crate) const ACKS: Wave = Wave {
    kind: ReplyKind::Ack,
    after: 200,
    ahead: 0,
};

/// A turn in which nothing comes.
fn quiet(alloc: Global, at: u64) -> TurnLine
    ensures { given_of result ≡ quiet_given at }
{
    TurnLine {
        wake: Wake {
            at,
            salt: SALT,
            event: Event::Quiet,
        },
        bytes: Vec::new(alloc),
    }
}

/// The turn of a wave in which the interface with this number gets its message.
fn wave_turn(alloc: Global, wave: Wave, index: u8) -> Result<TurnLine, NoMemory>
    requires at { wave.after + index < 2 ^ 64 }
    requires xid { index + wave.ahead < 2 ^ 32 }
    ensures { IfOk result (λ turn. given_of turn ≡ wave_turn wave index) }
{
    let to = ReplyTo {
        index,
        kind: wave.kind,
        xid: u32::from(index) + wave.ahead,
    };
    reply_turn(alloc, wave.after + u64::from(index), to)
}

/// The turns of a wave.
fn push_wave(turns: &mut Vec<TurnLine>, alloc: Global, wave: Wave) -> Result<(), NoMemory>
    requires at { wave.after + INTERFACES < 2 ^ 64 }
    requires xid { INTERFACES + wave.ahead < 2 ^ 32 }
    ensures { OnOk result (map given_of turns.new.items ≡ map given_of turns.old.items ++ wave_given wave) }
{
    for index in 1..=INTERFACES {
        turns.push(wave_turn(alloc, wave, index)?)?;
    }
    Ok(())
}

/// The turns of a renewal. A client never draws the transaction number of its last exchange again: where the random
/// words are 0, odd rounds have the number of the interface and one more, and even ones that number.
fn push_round(turns: &mut Vec<TurnLine>, alloc: Global, round: u64) -> Result<(), NoMemory>
    requires { round ≤ MOST_ROUNDS }
    ensures { OnOk result (map given_of turns.new.items ≡ map given_of turns.old.items ++ round_given round) }
{
    let after = ROUND * round;
    turns.push(quiet(alloc, after))?;
    let wave = Wave {
        kind: ReplyKind::Ack,
        after,
        ahead: (round % 2) as u32,
    };
    push_wave(turns, alloc, wave)
}

/// All turns: an OFFER and an ACK to each interface, and so many renewals.
pub(crate) fn made_turns(alloc: Global, rounds: u64) -> Result<Vec<TurnLine>, NoMemory>
    requires first { 1 ≤ rounds }
    requires last { rounds ≤ MOST_ROUNDS }
    ensures { IfOk result (λ turns. map given_of turns.items ≡ made_turns rounds) }
{
    let mut turns = Vec::new(alloc);
    turns.push(quiet(alloc, FIRST_TURN))?;
    push_wave(&mut turns, alloc, OFFERS)?;
    push_wave(&mut turns, alloc, ACKS)?;
    for round in 1..=rounds {
        push_round(&mut turns, alloc, round)?;
    }
    Ok(turns)
}
