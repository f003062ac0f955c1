//! The calls of the store, each with its line in the transcript.
ghost use Rattle.std.specs.Prelude.{◌≡◌, [], ◌∷◌, IfOk, IfErr, OnOk, IfSome};
ghost use Rattle.std.specs.List.{AllByRecursion};
ghost use Rattle.std.specs.String.{string_bytes};
ghost use Rattle.world.specs.FileNames.{IsFileName};
ghost use Rattle.world.specs.StoreCalls.{ListedAsides};
ghost use Rattle.script_model.specs.Lines as lines;
ghost use Rattle.transcript_text.specs.Printed.{reading_of};
ghost use Rattle.lease_file.specs.FileReads.{got_reading};
ghost use Rattle.device_calls.specs.Calls.{ListAsides, Read, WriteAside, SyncAside, RenameAside, RemoveFile, Settle};
ghost use Rattle.device_calls.specs.CallLines.{store_lines};
ghost use Rattle.device_calls.specs.Programs.{Then, Done};
ghost use Rattle.device_calls.specs.Printing.{Prints};
ghost use Rattle.device_calls.specs.Does.{Does};
ghost use Rattle.device_calls.specs.Fronts.{HasBegun};
ghost use Rattle.life_devices.specs.Answered.{names_of};

use lease_file::Got;
use life_devices::{Outside, say};
use std::alloc::Global;
use transcript_text::{Reading, TranscriptLine};
use world::NoMemory;

fn say_listing(listed: &Option<Vec<String>>, text: &mut Vec<u8>) -> Result<(), NoMemory>
    ensures { OnOk result (Prints text.old.items text.new.items (store_lines (ListedAsides (names_of listed.now)))) }
{
    match listed {
        None => say(&TranscriptLine::AsidesFailed, text),
        Some(names) => say(&TranscriptLine::Asides(names), text),
    }
}

/// Lists the asides.
pub fn list<W: Outside>(
    alloc: Global,
    outside: &mut W,
    text: &mut Vec<u8>,
) -> Result<Option<Vec<String>>, NoMemory>
    ensures does { IfOk result
        (λ names. Does (Then ListAsides Done) (names_of names) (W.seen outside.old)
        (W.seen outside.new) text.old.items text.new.items) }
    ensures begun { IfErr result (λ _. HasBegun (Then ListAsides Done) (W.seen outside.old) (W.seen outside.new)) }
    ensures fit { IfOk result
        (λ names. IfSome names (λ v. AllByRecursion (λ name. IsFileName (string_bytes name)) v.items)) }
    ensures waiting { (W.seen outside.new).waiting ≡ (W.seen outside.old).waiting }
{
    let listed = outside.list_asides(alloc)?;
    say_listing(&listed, text)?;
    Ok(listed)
}

/// Removes a file.
pub fn remove<W: Outside>(outside: &mut W, name: &str, text: &mut Vec<u8>) -> Result<bool, NoMemory>
    requires { IsFileName name.now }
    ensures does { IfOk result
        (λ done. Does (Then (RemoveFile name.now) Done) done (W.seen outside.old)
        (W.seen outside.new) text.old.items text.new.items) }
    ensures begun { IfErr result
        (λ _. HasBegun (Then (RemoveFile name.now) Done) (W.seen outside.old) (W.seen outside.new)) }
    ensures waiting { (W.seen outside.new).waiting ≡ (W.seen outside.old).waiting }
{
    let done = outside.remove(name)?;
    say(&TranscriptLine::Removed { name, done }, text)?;
    Ok(done)
}

/// Settles what was put in place or removed.
pub fn settle<W: Outside>(outside: &mut W, text: &mut Vec<u8>) -> Result<bool, NoMemory>
    ensures does { IfOk result
        (λ done. Does (Then Settle Done) done (W.seen outside.old)
        (W.seen outside.new) text.old.items text.new.items) }
    ensures begun { IfErr result (λ _. HasBegun (Then Settle Done) (W.seen outside.old) (W.seen outside.new)) }
    ensures waiting { (W.seen outside.new).waiting ≡ (W.seen outside.old).waiting }
{
    let done = outside.settle()?;
    say(&TranscriptLine::Settled { done }, text)?;
    Ok(done)
}

fn reading_line(got: &Got) -> Reading<'_>
    ensures { reading_of result ≡ got_reading got.now }
{
    match got {
        Got::Text(bytes) => Reading::Found(bytes),
        Got::Missing => Reading::Missing,
        Got::Unread => Reading::Unread,
    }
}

fn say_read<'a>(name: &'a str, got: &'a Got, text: &mut Vec<u8>) -> Result<(), NoMemory>
    ensures { OnOk result (Prints text.old.items text.new.items (lines.Read name.now (got_reading got.now) ∷ [])) }
{
    let reading = reading_line(got);
    let line = TranscriptLine::Read { name, reading };
    say(&line, text)
}

/// Reads a file.
pub fn read<W: Outside>(
    alloc: Global,
    outside: &mut W,
    name: &str,
    text: &mut Vec<u8>,
) -> Result<Got, NoMemory>
    requires { IsFileName name.now }
    ensures does { IfOk result
        (λ got. Does (Then (Read name.now) Done) (got_reading got) (W.seen outside.old)
        (W.seen outside.new) text.old.items text.new.items) }
    ensures begun { IfErr result (λ _. HasBegun (Then (Read name.now) Done) (W.seen outside.old) (W.seen outside.new)) }
    ensures waiting { (W.seen outside.new).waiting ≡ (W.seen outside.old).waiting }
{
    let got = outside.read(alloc, name)?;
    say_read(name, &got, text)?;
    Ok(got)
}

/// Writes the aside of a file.
pub fn write<'a, W: Outside>(
    outside: &mut W,
    name: &'a str,
    bytes: &'a [u8],
    text: &mut Vec<u8>,
) -> Result<bool, NoMemory>
    requires { IsFileName name.now }
    ensures does { IfOk result
        (λ done. Does (Then (WriteAside name.now bytes.now) Done) done (W.seen outside.old)
        (W.seen outside.new) text.old.items text.new.items) }
    ensures begun { IfErr result
        (λ _. HasBegun (Then (WriteAside name.now bytes.now) Done) (W.seen outside.old) (W.seen outside.new)) }
    ensures waiting { (W.seen outside.new).waiting ≡ (W.seen outside.old).waiting }
{
    let done = outside.write_aside(name, bytes)?;
    say(&TranscriptLine::Wrote { name, bytes, done }, text)?;
    Ok(done)
}

/// Brings the aside of a file to rest.
pub fn sync<W: Outside>(outside: &mut W, name: &str, text: &mut Vec<u8>) -> Result<bool, NoMemory>
    requires { IsFileName name.now }
    ensures does { IfOk result
        (λ done. Does (Then (SyncAside name.now) Done) done (W.seen outside.old)
        (W.seen outside.new) text.old.items text.new.items) }
    ensures begun { IfErr result
        (λ _. HasBegun (Then (SyncAside name.now) Done) (W.seen outside.old) (W.seen outside.new)) }
    ensures waiting { (W.seen outside.new).waiting ≡ (W.seen outside.old).waiting }
{
    let done = outside.sync_aside(name)?;
    say(&TranscriptLine::Synced { name, done }, text)?;
    Ok(done)
}

/// Puts the aside of a file in its place.
pub fn rename<W: Outside>(outside: &mut W, name: &str, text: &mut Vec<u8>) -> Result<bool, NoMemory>
    requires { IsFileName name.now }
    ensures does { IfOk result
        (λ done. Does (Then (RenameAside name.now) Done) done (W.seen outside.old)
        (W.seen outside.new) text.old.items text.new.items) }
    ensures begun { IfErr result
        (λ _. HasBegun (Then (RenameAside name.now) Done) (W.seen outside.old) (W.seen outside.new)) }
    ensures waiting { (W.seen outside.new).waiting ≡ (W.seen outside.old).waiting }
{
    let done = outside.rename_aside(name)?;
    say(&TranscriptLine::Renamed { name, done }, text)?;
    Ok(done)
}
