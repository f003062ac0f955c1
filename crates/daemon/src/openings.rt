//! The opening of a life.
ghost use Rattle.std.specs.Prelude.{◌≡◌, Some, false, IfOk, IfErr, map};
ghost use Rattle.std.specs.List.{AllByRecursion};
ghost use Rattle.std.specs.String.{string_bytes};
ghost use Rattle.world.specs.FileNames.{IsFileName};
ghost use Rattle.settings.specs.Fitting.{AreManaged};
ghost use Rattle.device_calls.specs.Does.{Does};
ghost use Rattle.device_calls.specs.Fronts.{HasBegun};
ghost use Rattle.turn_model.specs.Turns.{is_over};
ghost use Rattle.turn_model.specs.Opening.{clearing_listed, clearing, opening_asks};
ghost use Rattle.daemon.specs.Lives.{life_of, IsOrderly};
ghost use Rattle.daemon.specs.Serving.{MakesOpening};
ghost use Rattle.life_devices.specs.Waits.{KnowsChild, OnlyChild};

use crate::acts::{Outlook, Step, act};
use crate::lives::{Life, cut};
use client_core::core_open;
use hook_child::supervisor_new;
use life_asks::Pending;
use life_devices::{Outside, say};
use life_files::stores::{list, remove, settle};
use life_files::{KeptFiles, Touched, load_all};
use net_types::IfSpec;
use settings::Managed;
use std::alloc::Global;
use transcript_text::TranscriptLine;
use world::{Begin, NoMemory};

/// Removes the asides, and settles that, where there are any. A failed removal doesn't stop the others.
fn remove_all<W: Outside>(
    outside: &mut W,
    names: &[String],
    text: &mut Vec<u8>,
) -> Result<(), NoMemory>
    requires { AllByRecursion (λ name. IsFileName (string_bytes name)) names.now }
    ensures does { IfOk result
        (λ x. Does (clearing_listed (Some (map string_bytes names.now))) x (W.seen outside.old)
        (W.seen outside.new) text.old.items text.new.items) }
    ensures begun { IfErr result
        (λ _. HasBegun (clearing_listed (Some (map string_bytes names.now))) (W.seen outside.old)
        (W.seen outside.new)) }
    ensures waiting { (W.seen outside.new).waiting ≡ (W.seen outside.old).waiting }
{
    if names.is_empty() {
        return Ok(());
    }
    for name in names {
        let _done = remove(outside, name, text)?;
    }
    let _done = settle(outside, text)?;
    Ok(())
}

/// Clears the files that an interrupted save left.
fn clear<W: Outside>(alloc: Global, outside: &mut W, text: &mut Vec<u8>) -> Result<(), NoMemory>
    ensures does { IfOk result
        (λ x. Does clearing x (W.seen outside.old) (W.seen outside.new) text.old.items text.new.items) }
    ensures begun { IfErr result (λ _. HasBegun clearing (W.seen outside.old) (W.seen outside.new)) }
    ensures waiting { (W.seen outside.new).waiting ≡ (W.seen outside.old).waiting }
{
    match list(alloc, outside, text)? {
        None => Ok(()),
        Some(names) => remove_all(outside, &names, text),
    }
}

/// Opens a life: clears the asides, reads the files, and then does what the client's opening asks.
/// Appends the opening's lines to `text`. `specs` are all interfaces of the host, managed or not.
pub fn open<W: Outside>(
    alloc: Global,
    managed: &[Managed],
    specs: &[IfSpec],
    begin: Begin,
    outside: &mut W,
    text: &mut Vec<u8>,
) -> Result<Life, NoMemory>
    requires managed { AreManaged managed.now }
    requires child { (W.seen outside.old).waiting.child ≡ false }
    ensures waiting { OnlyChild (W.seen outside.old).waiting (W.seen outside.new).waiting }
    ensures child { IfOk result (λ life. KnowsChild life.hooks (W.seen outside.new)) }
    ensures orderly { IfOk result IsOrderly }
    ensures going { IfOk result (λ life. is_over (life_of life) ≡ false) }
    ensures made { IfOk result
        (λ life. MakesOpening managed.now specs.now begin (life_of life) (W.seen outside.old)
        (W.seen outside.new) text.old.items text.new.items) }
    ensures begun { IfErr result
        (λ _. HasBegun (opening_asks managed.now specs.now begin) (W.seen outside.old) (W.seen outside.new)) }
{
    say(&TranscriptLine::Start(begin), text)?;
    clear(alloc, outside, text)?;
    let found = load_all(alloc, outside, managed, text)?;
    let opened = core_open(alloc, found.beginnings, specs, begin)?;
    let step = Step {
        core: opened.core,
        outs: opened.outs,
        jobs: opened.jobs,
    };
    let outlook = Outlook {
        pending: Pending::Unknown,
        files: KeptFiles::new(found.files),
        hooks: supervisor_new(alloc)?,
        moment: cut(begin.at),
        stop: None,
    };
    let life = act(alloc, managed, outlook, step, Touched::All, outside, text)?;
    say(&TranscriptLine::Until(life.until()), text)?;
    Ok(life)
}
