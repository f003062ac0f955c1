//! A configuration read alone, and its notices.
ghost use Rattle.std.specs.Prelude.{◌≡◌, ◌++◌, true, OnOk};
ghost use Rattle.conf_text.specs.Contents.{configuration};
ghost use Rattle.text_works.specs.Checks.{IsCheckAnswer, TellsConfiguration, check_text, checking};
ghost use Rattle.text_works.specs.Input.{ReadsWithin, input_told};
ghost use Rattle.text_works.specs.Statuses.{HasStatusCause, Completes};

use crate::heads::say_notices;
use crate::settling::read_configuration;
use crate::status::Status;
use crate::working::{Finding, TextWork, perform};
use conf_text::{Conf, notices};
use std::alloc::Global;
use world::{NoMemory, Sink, Source};

/// Appends what there is to say of a configuration.
#[tactic(auto, using(crate::proofs::CheckTexts::all_said))]
fn say_check(conf: &Conf, text: &mut Vec<u8>) -> Result<(), NoMemory>
    ensures { OnOk result (text.new.items ≡ text.old.items ++ check_text (configuration conf.now)) }
{
    say_notices(notices(conf), text)?;
    text.extend_from_slice(b"ok\n")?;
    Ok(())
}

/// `check`: what there is to say of the configuration that the bytes are.
pub struct CheckWork;

impl TextWork for CheckWork {
    ghost work = { λ _. checking };

    #[tactic(auto, using(crate::proofs::CheckTexts::refused_check))]
    fn text_of(&self, alloc: Global, bytes: &[u8]) -> Result<Finding, Status> {
        let conf = read_configuration(alloc, bytes)?;
        let mut text = Vec::new(alloc);
        say_check(&conf, &mut text)?;
        Ok(Finding::good(text))
    }
}

/// Reads a configuration of at most 16,777,216 bytes from the input, and writes a line for each of its notices, and
/// `ok`.
#[tactic(auto, using(crate::proofs::CheckTexts::checking_is_decided, crate::proofs::CheckTexts::configuration_serves))]
pub fn check<I: Source, O: Sink>(alloc: Global, input: &mut I, out: &mut O) -> Status
    ensures answer { IsCheckAnswer result (I.left input.old) (O.written out.old) (O.written out.new) }
    ensures cause { HasStatusCause result (I.faults input.old) (I.faults input.new) (O.faults out.old)
        (O.faults out.new) }
    ensures complete { TellsConfiguration (I.left input.old) → I.faults input.new ≡ I.faults input.old
        → O.faults out.new ≡ O.faults out.old → Completes result }
    ensures checks { TellsConfiguration (I.left input.old) → I.never_fails input.old ≡ true
        → O.never_fails out.old ≡ true
        → Completes result }
    ensures reads { ReadsWithin (input_told (I.left input.old) (I.taken input.old) (I.reads input.old))
        (input_told (I.left input.new) (I.taken input.new) (I.reads input.new)) }
{
    perform(alloc, &CheckWork, input, out)
}
