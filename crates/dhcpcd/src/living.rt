//! One life over the devices that are given.
ghost use Rattle.std.specs.Prelude.{◌≡◌, ◌≢◌, ◌≤◌, [], true, false, Some, Ok, Err, IfOk, IfErr, map};
ghost use Rattle.script_model.specs.Scripts.{FitInterfaces};
ghost use Rattle.conf_text.specs.Configurations.{IsConfOf};
ghost use Rattle.conf_text.specs.Contents.{configuration};
ghost use Rattle.replayed_lives.specs.TextWorks.Checks.{TellsConfiguration};
ghost use Rattle.dhcpcd.specs.GoodAsks.{WaitsHeld, WaitsNeverFail};
ghost use Rattle.replayed_lives.specs.TextWorks.Input.{ReadsWithin, input_told};
ghost use Rattle.dhcpcd.specs.Living.{IsServed, IsLifeAnswer, IsLived, IsLiveAnswer, CompletesLife, HasLinkCause, around, asked};
ghost use Rattle.replayed_lives.specs.TextWorks.Statuses.{HasStatusCause};

use conf_laws::configuration_is_one;
use conf_text::{Conf, managed, notices};
use daemon::{Outside, ServeEnd, serve};
use net_types::IfSpec;
use replayed_lives::{Start, Status, read_all, read_configuration, write_live_head};
use std::alloc::Global;
use world::{Sink, Source};

/// A configuration with its text, and the interfaces of the host.
#[derive(Clone, Copy)]
struct Asked<'a> {
    text: &'a [u8],
    conf: &'a Conf,
    specs: &'a [IfSpec],
}

/// Writes the lines before a life, and lives it. `turns` are the wakes that it may handle.
#[tactic(auto, using(crate::proofs::LiveAnswers::managed_fit_live, crate::proofs::LiveAnswers::lives_end))]
fn live_on<O: Sink, W: Outside>(
    alloc: Global,
    ask: Asked<'_>,
    live: &mut W,
    out: &mut O,
    turns: u64,
) -> Result<(), Status>
    requires child { (W.seen live.old).waiting.child ≡ false }
    requires fit { FitInterfaces ask.specs.now }
    requires configured { IsConfOf ask.text.now (Ok (configuration ask.conf.now)) }
    ensures ok { IfOk result (λ _. IsServed
        (asked ask.entry.text.now (configuration ask.entry.conf.now) ask.entry.specs.now turns)
        (around (O.written out.old) (O.written out.new) (W.seen live.old) (W.seen live.new))) }
    ensures err { IfErr result (λ status. IsLifeAnswer status
        (asked ask.entry.text.now (configuration ask.entry.conf.now) ask.entry.specs.now turns)
        (around (O.written out.old) (O.written out.new) (W.seen live.old) (W.seen live.new))) }
    ensures not_done { result ≢ Err Status.Done }
    ensures later { IfOk result
        (λ _. (O.faults out.old ≤ O.faults out.new)
        × ((W.seen live.old).waiting.faults ≤ (W.seen live.new).waiting.faults)) }
    ensures cause { IfErr result (λ status. HasStatusCause status 0 0 (O.faults out.old) (O.faults out.new)) }
    ensures link { IfErr result
        (λ status. HasLinkCause status (W.seen live.old).waiting.faults (W.seen live.new).waiting.faults) }
    ensures foretold { (W.seen live.old).waiting.failing ≡ Some [] → result ≢ Err Status.LinkFault }
    ensures steady { O.never_fails out.old ≡ true → O.faults out.new ≡ O.faults out.old }
{
    let Asked { text, conf, specs } = ask;
    configuration_is_one();
    let managed = managed(alloc, conf, specs)?;
    let start = Start {
        text,
        notices: notices(conf),
        specs,
    };
    write_live_head(alloc, &start, out)?;
    match serve(alloc, &managed, specs, live, out, turns) {
        ServeEnd::End => Ok(()),
        ServeEnd::TurnsOver => Err(Status::TurnsOver),
        ServeEnd::LinkFault => Err(Status::LinkFault),
        ServeEnd::WriteFault => Err(Status::WriteFault),
        ServeEnd::NoMemory => Err(Status::NoMemory),
    }
}

/// Reads the configuration that the input is, and lives a life with it.
#[tactic(auto, using(crate::proofs::LiveAnswers::live_answers))]
fn live_input<I: Source, O: Sink, W: Outside>(
    alloc: Global,
    specs: &[IfSpec],
    input: &mut I,
    out: &mut O,
    live: &mut W,
    turns: u64,
) -> Result<(), Status>
    requires child { (W.seen live.old).waiting.child ≡ false }
    requires fit { FitInterfaces specs.now }
    ensures ok { IfOk result (λ _. IsLived Status.Done specs.now turns (I.left input.old)
        (around (O.written out.old) (O.written out.new) (W.seen live.old) (W.seen live.new))
        × (I.faults input.old ≤ I.faults input.new)) }
    ensures err { IfErr result
        (λ status. IsLiveAnswer status specs.now turns (I.left input.old)
        (around (O.written out.old) (O.written out.new) (W.seen live.old) (W.seen live.new))) }
    ensures later { IfOk result
        (λ _. (O.faults out.old ≤ O.faults out.new)
        × ((W.seen live.old).waiting.faults ≤ (W.seen live.new).waiting.faults)) }
    ensures not_done { result ≢ Err Status.Done }
    ensures cause { IfErr result
        (λ status. HasStatusCause status (I.faults input.old) (I.faults input.new) (O.faults out.old)
        (O.faults out.new)) }
    ensures link { IfErr result
        (λ status. HasLinkCause status (W.seen live.old).waiting.faults (W.seen live.new).waiting.faults) }
    ensures foretold { (W.seen live.old).waiting.failing ≡ Some [] → result ≢ Err Status.LinkFault }
    ensures reads { ReadsWithin (input_told (I.left input.old) (I.taken input.old) (I.reads input.old))
        (input_told (I.left input.new) (I.taken input.new) (I.reads input.new)) }
    ensures input_steady { I.never_fails input.old ≡ true → I.faults input.new ≡ I.faults input.old }
    ensures out_steady { O.never_fails out.old ≡ true → O.faults out.new ≡ O.faults out.old }
{
    let text = read_all(alloc, input)?;
    let conf = read_configuration(alloc, &text)?;
    let ask = Asked {
        text: &text,
        conf: &conf,
        specs,
    };
    live_on(alloc, ask, live, out, turns)?;
    Ok(())
}

/// Reads a configuration of at most 16,777,216 bytes from the input, and lives one life with it over the devices: until
/// nothing more comes, or five seconds after a stop, and for at most so many wakes.
pub fn live<I: Source, O: Sink, W: Outside>(
    alloc: Global,
    specs: &[IfSpec],
    input: &mut I,
    out: &mut O,
    live: &mut W,
    turns: u64,
) -> Status
    requires child { (W.seen live.old).waiting.child ≡ false }
    requires fit { FitInterfaces specs.now }
    ensures answer { IsLiveAnswer result specs.now turns (I.left input.old)
        (around (O.written out.old) (O.written out.new) (W.seen live.old) (W.seen live.new)) }
    ensures cause { HasStatusCause result (I.faults input.old) (I.faults input.new) (O.faults out.old)
        (O.faults out.new) }
    ensures link { HasLinkCause result (W.seen live.old).waiting.faults (W.seen live.new).waiting.faults }
    ensures complete { TellsConfiguration (I.left input.old)
        → I.faults input.new ≡ I.faults input.old
        → O.faults out.new ≡ O.faults out.old
        → WaitsHeld (W.seen live.old) (W.seen live.new)
        → CompletesLife result }
    ensures lives { TellsConfiguration (I.left input.old)
        → I.never_fails input.old ≡ true
        → O.never_fails out.old ≡ true
        → WaitsNeverFail (W.seen live.old)
        → CompletesLife result }
    ensures reads { ReadsWithin (input_told (I.left input.old) (I.taken input.old) (I.reads input.old))
        (input_told (I.left input.new) (I.taken input.new) (I.reads input.new)) }
{
    match live_input(alloc, specs, input, out, live, turns) {
        Ok(()) => Status::Done,
        Err(status) => status,
    }
}
