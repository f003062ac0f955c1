//! One turn of a life with its lines in the transcript: the hook's child is polled, the client makes its step, and
//! what that asks is done.

ghost use Rattle.std.specs.Prelude.{◌≡◌, false, [], ◌∷◌, IfOk, IfErr, OnOk, length};
ghost use Rattle.world.specs.LinkCalls.{frame_len};
ghost use Rattle.script_model.specs.Lines as lines;
ghost use Rattle.client_core.specs.IfaceMachines.Inputs.{event_of, bytes_of};
ghost use Rattle.device_calls.specs.Printing.{Prints};
ghost use Rattle.device_calls.specs.Fronts.{HasBegun};
ghost use Rattle.turn_model.specs.Turns.{is_end, turn_asks};
ghost use Rattle.daemon.specs.Lives.{life_of, IsOrderly};
ghost use Rattle.daemon.specs.Serving.{MakesTurn};
ghost use Rattle.life_devices.specs.Waits.{KnowsChild, OnlyChild};

use crate::acts::{Outlook, Step, act};
use crate::lives::{Life, raised, stop_moment};
use client_core::{Turn, TurnInput, step};
use life_asks::poll_child;
use life_devices::{Outside, say};
use life_files::Touched;
use settings::Managed;
use std::alloc::Global;
use transcript_text::TranscriptLine;
use world::{Event, NoMemory, Wake};

/// What a wake brings to the client.
fn input(event: Event, bytes: &[u8]) -> TurnInput<'_>
    requires more { is_end event ≡ false }
    requires whole { frame_len event ≡ length bytes.now }
    ensures event { event_of result ≡ event }
    ensures bytes { bytes_of result ≡ bytes.now }
{
    match event {
        Event::Frame { iface, .. } => TurnInput::Frame { iface, bytes },
        Event::Carrier { iface, up } => TurnInput::Carrier { iface, up },
        Event::Duplicate { iface, addr } => TurnInput::Duplicate { iface, addr },
        Event::Release { iface } => TurnInput::Release { iface },
        Event::Rebind { iface } => TurnInput::Rebind { iface },
        Event::Stop => TurnInput::Stop,
        Event::Quiet => TurnInput::Quiet,
        Event::End => unreachable!(),
    }
}

fn say_turn(moment: u64, wake: Wake, bytes: &[u8], text: &mut Vec<u8>) -> Result<(), NoMemory>
    ensures { OnOk result
        (Prints text.old.items text.new.items (lines.Turn moment wake.salt wake.event bytes.now ∷ [])) }
{
    let line = TranscriptLine::Turn {
        at: moment,
        salt: wake.salt,
        event: wake.event,
        bytes,
    };
    say(&line, text)
}

/// Handles a wake: the hook's child is polled, then the client makes its step, then what that asks is done.
/// Appends the turn's lines to `text`.
pub fn turn<W: Outside>(
    alloc: Global,
    managed: &[Managed],
    life: Life,
    wake: Wake,
    bytes: &[u8],
    outside: &mut W,
    text: &mut Vec<u8>,
) -> Result<Life, NoMemory>
    requires orderly { IsOrderly life }
    requires child { KnowsChild life.hooks (W.seen outside.old) }
    requires more { is_end wake.event ≡ false }
    requires whole { frame_len wake.event ≡ length bytes.now }
    ensures waiting { OnlyChild (W.seen outside.old).waiting (W.seen outside.new).waiting }
    ensures child { IfOk result (λ next. KnowsChild next.hooks (W.seen outside.new)) }
    ensures orderly { IfOk result IsOrderly }
    ensures made { IfOk result
        (λ next. MakesTurn managed.now (life_of life) wake bytes.now (life_of next) (W.seen outside.old)
        (W.seen outside.new) text.old.items text.new.items) }
    ensures begun { IfErr result
        (λ _. HasBegun (turn_asks managed.now (life_of life) wake bytes.now) (W.seen outside.old)
        (W.seen outside.new)) }
{
    let Life {
        core,
        table,
        files,
        mut hooks,
        moment,
        stop,
        unsent,
    } = life;
    let moment = raised(moment, wake.at);
    let turn = Turn {
        at: moment,
        salt: wake.salt,
        unsent,
        input: input(wake.event, bytes),
    };
    say_turn(moment, wake, bytes, text)?;
    poll_child(outside, &mut hooks, moment, text)?;
    let stepped = step(core, turn)?;
    let step = Step {
        core: stepped.core,
        outs: stepped.outs,
        jobs: stepped.jobs,
    };
    let outlook = Outlook {
        pending: table.since(stepped.rows),
        files,
        hooks,
        moment,
        stop: stop_moment(stop, wake.event, moment),
    };
    let touched = Touched::These(&stepped.touched);
    let life = act(alloc, managed, outlook, step, touched, outside, text)?;
    say(&TranscriptLine::Until(life.until()), text)?;
    Ok(life)
}
