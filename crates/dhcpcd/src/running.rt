//! The top call: it does the work that the program's words ask for, and answers how that ended.

ghost use Rattle.std.specs.Prelude.{ℕ, ◌≡◌, true, false, map};
ghost use Rattle.std.specs.String.{string_bytes};
ghost use Rattle.capture_script.specs.CapturedScripts.{spec_of};
ghost use Rattle.net_types.specs.declared.address.Mac.{Mac};
ghost use Rattle.net_types.specs.declared.interface.Name.{Name};
ghost use Rattle.replayed_lives.specs.TextWorks.Auditing.{IsAnsweredDuly, IsAuditAnswer, IsWhyAnswer};
ghost use Rattle.replayed_lives.specs.TextWorks.Checks.{IsCheckAnswer};
ghost use Rattle.replayed_lives.specs.TextWorks.Dumping.{IsDumpAnswer};
ghost use Rattle.replayed_lives.specs.TextWorks.Importing.{IsImportAnswer};
ghost use Rattle.replayed_lives.specs.TextWorks.Labs.{IsLabAnswer};
ghost use Rattle.replayed_lives.specs.TextWorks.LabsHeld.{IsHeldApart};
ghost use Rattle.dhcpcd.specs.GoodAsks.{AskGoodReplay, AskGoodCheck, AskGoodDump, AskGoodImport, AskGoodLab, AskGoodLive, StreamsHeld, StreamsNeverFail, WaitsHeld, WaitsNeverFail};
ghost use Rattle.replayed_lives.specs.TextWorks.Input.{ReadsWithin, input_told};
ghost use Rattle.dhcpcd.specs.Living.{IsAnsweredLive, CompletesLife, HasLinkCause, around};
ghost use Rattle.replayed_lives.specs.TextWorks.Statuses.{HasStatusCause, Completes};
ghost use Rattle.replayed_lives.specs.Replaying.{IsAnswer};
ghost use Rattle.dhcpcd.specs.Making.{IsMadeAnswer};
ghost use Rattle.asked_works.specs.Words.{AskAudit, AskCheck, AskDump, AskLab, AskReplay, AskLive, AskMake, AskWhy, AsksImport, AsksMake, AskWork};
ghost use Rattle.dhcpcd.specs.Usage.{IsUsage};

use crate::living::live;
use crate::making::make;
use asked_works::{Work, work_of};
use daemon::Outside;
use replayed_lives::{
    Status, audit_transcript, check, dump_lease, explain_transcript, import_capture, lab, replay,
};
use std::alloc::Global;
use world::{NoMemory, Sink, Source};

/// Does what the words after the program's name ask for. `replay` reads a script of at most 16,777,216 bytes from the
/// input, and writes its transcript. `check` reads a configuration as long, and writes its notices and `ok`. `live`
/// reads such a configuration and lives one life over the devices, for at most so many wakes, and writes its
/// transcript. `make` lives a script of its own in memory, for so many rounds, and writes how many lines of each kind
/// its transcript has; it reads nothing. `dump` reads a lease file, and writes its variables; `import` reads a capture
/// of packets, and writes its script. `lab` reads a schedule of clients and a server, lives it in memory, and writes
/// what they send and hold. `audit` reads a transcript, and writes whether each address that it shows has its basis, or
/// the first that has none; `audit why` adds why each one may be held that is shown at the end of a life. Other words
/// are `Usage`, or `NoMemory` where they begin with `live`, and touch nothing. Where the input can't be read, is too
/// long or is refused, nothing is written and no device is asked; after another end a front of the output stands
/// written. No hook's child may run yet.
#[tactic(auto, using(crate::proofs::MakeAnswers::words_ask_apart, crate::proofs::MakeAnswers::make_beside))]
pub fn run<I: Source, O: Sink, W: Outside>(
    alloc: Global,
    words: &[String],
    input: &mut I,
    out: &mut O,
    devices: &mut W,
    turns: u64,
) -> Status
    requires child { (W.seen devices.old).waiting.child ≡ false }
    ensures answer { AskReplay (map string_bytes words.now)
        → IsAnswer result (I.left input.old) (O.written out.old) (O.written out.new) }
    ensures check { AskCheck (map string_bytes words.now)
        → IsCheckAnswer result (I.left input.old) (O.written out.old) (O.written out.new) }
    ensures live { AskLive (map string_bytes words.now)
        → IsAnsweredLive (map string_bytes words.now) result turns (I.left input.old)
        (around (O.written out.old) (O.written out.new) (W.seen devices.old) (W.seen devices.new)) }
    ensures made { (rounds : ℕ) → AsksMake (map string_bytes words.now) rounds
        → IsMadeAnswer result rounds (O.written out.old) (O.written out.new) }
    ensures dump { AskDump (map string_bytes words.now)
        → IsDumpAnswer result (I.left input.old) (O.written out.old) (O.written out.new) }
    ensures imports { (name : Name) (mac : Mac) → AsksImport (map string_bytes words.now) name mac
        → IsImportAnswer (spec_of name mac) result (I.left input.old) (O.written out.old) (O.written out.new) }
    ensures lab { AskLab (map string_bytes words.now)
        → IsLabAnswer result (I.left input.old) (O.written out.old) (O.written out.new) }
    ensures lab_apart { AskLab (map string_bytes words.now)
        → result ≡ Status.Done
        → IsHeldApart (I.left input.old) (O.written out.old) (O.written out.new) }
    ensures audit { AskAudit (map string_bytes words.now)
        → IsAuditAnswer result (I.left input.old) (O.written out.old) (O.written out.new) }
    ensures why { AskWhy (map string_bytes words.now)
        → IsWhyAnswer result (I.left input.old) (O.written out.old) (O.written out.new) }
    ensures usage { (AskWork (map string_bytes words.now) → ⊥) → IsUsage (map string_bytes words.now) result }
    ensures formless { result ≡ Status.Usage → AskWork (map string_bytes words.now) → ⊥ }
    ensures unread { (AskWork (map string_bytes words.now) → ⊥)
        → (I.reads input.new ≡ I.reads input.old) × (I.left input.new ≡ I.left input.old) }
    ensures make_unread { AskMake (map string_bytes words.now)
        → (I.reads input.new ≡ I.reads input.old) × (I.left input.new ≡ I.left input.old) }
    ensures unwritten { (AskWork (map string_bytes words.now) → ⊥) → O.written out.new ≡ O.written out.old }
    ensures unasked { (AskLive (map string_bytes words.now) → ⊥) → W.seen devices.new ≡ W.seen devices.old }
    ensures cause { HasStatusCause result (I.faults input.old) (I.faults input.new) (O.faults out.old)
        (O.faults out.new) }
    ensures link { HasLinkCause result (W.seen devices.old).waiting.faults (W.seen devices.new).waiting.faults }
    ensures complete { AskGoodReplay (map string_bytes words.now) (I.left input.old)
        → StreamsHeld (I.faults input.old) (I.faults input.new) (O.faults out.old) (O.faults out.new)
        → Completes result }
    ensures replays { AskGoodReplay (map string_bytes words.now) (I.left input.old)
        → StreamsNeverFail (I.never_fails input.old) (O.never_fails out.old) → Completes result }
    ensures check_complete { AskGoodCheck (map string_bytes words.now) (I.left input.old)
        → StreamsHeld (I.faults input.old) (I.faults input.new) (O.faults out.old) (O.faults out.new)
        → Completes result }
    ensures checks { AskGoodCheck (map string_bytes words.now) (I.left input.old)
        → StreamsNeverFail (I.never_fails input.old) (O.never_fails out.old) → Completes result }
    ensures dump_complete { AskGoodDump (map string_bytes words.now) (I.left input.old)
        → StreamsHeld (I.faults input.old) (I.faults input.new) (O.faults out.old) (O.faults out.new)
        → Completes result }
    ensures dumps { AskGoodDump (map string_bytes words.now) (I.left input.old)
        → StreamsNeverFail (I.never_fails input.old) (O.never_fails out.old) → Completes result }
    ensures import_complete { AskGoodImport (map string_bytes words.now) (I.left input.old)
        → StreamsHeld (I.faults input.old) (I.faults input.new) (O.faults out.old) (O.faults out.new)
        → Completes result }
    ensures imports_good { AskGoodImport (map string_bytes words.now) (I.left input.old)
        → StreamsNeverFail (I.never_fails input.old) (O.never_fails out.old) → Completes result }
    ensures lab_complete { AskGoodLab (map string_bytes words.now) (I.left input.old)
        → StreamsHeld (I.faults input.old) (I.faults input.new) (O.faults out.old) (O.faults out.new)
        → Completes result }
    ensures labs { AskGoodLab (map string_bytes words.now) (I.left input.old)
        → StreamsNeverFail (I.never_fails input.old) (O.never_fails out.old) → Completes result }
    ensures audit_complete { AskAudit (map string_bytes words.now)
        → StreamsHeld (I.faults input.old) (I.faults input.new) (O.faults out.old) (O.faults out.new)
        → IsAnsweredDuly (I.left input.old) result }
    ensures audits { AskAudit (map string_bytes words.now)
        → StreamsNeverFail (I.never_fails input.old) (O.never_fails out.old)
        → IsAnsweredDuly (I.left input.old) result }
    ensures why_complete { AskWhy (map string_bytes words.now)
        → StreamsHeld (I.faults input.old) (I.faults input.new) (O.faults out.old) (O.faults out.new)
        → IsAnsweredDuly (I.left input.old) result }
    ensures whys { AskWhy (map string_bytes words.now)
        → StreamsNeverFail (I.never_fails input.old) (O.never_fails out.old)
        → IsAnsweredDuly (I.left input.old) result }
    ensures live_complete { AskGoodLive (map string_bytes words.now) (I.left input.old)
        → StreamsHeld (I.faults input.old) (I.faults input.new) (O.faults out.old) (O.faults out.new)
        → WaitsHeld (W.seen devices.old) (W.seen devices.new)
        → CompletesLife result }
    ensures lives { AskGoodLive (map string_bytes words.now) (I.left input.old)
        → StreamsNeverFail (I.never_fails input.old) (O.never_fails out.old)
        → WaitsNeverFail (W.seen devices.old)
        → CompletesLife result }
    ensures make_complete { AskMake (map string_bytes words.now) → O.faults out.new ≡ O.faults out.old
        → Completes result }
    ensures makes { AskMake (map string_bytes words.now) → O.never_fails out.old ≡ true → Completes result }
    ensures reads { AskWork (map string_bytes words.now)
        → ReadsWithin
        (input_told (I.left input.old) (I.taken input.old) (I.reads input.old))
        (input_told (I.left input.new) (I.taken input.new) (I.reads input.new)) }
{
    match work_of(alloc, words) {
        Ok(Some(Work::Replay)) => replay(alloc, input, out),
        Ok(Some(Work::Check)) => check(alloc, input, out),
        Ok(Some(Work::Live(specs))) => live(alloc, specs.as_slice(), input, out, devices, turns),
        Ok(Some(Work::Make(rounds))) => make(alloc, rounds, out),
        Ok(Some(Work::Dump)) => dump_lease(alloc, input, out),
        Ok(Some(Work::Import(on))) => import_capture(alloc, on, input, out),
        Ok(Some(Work::Lab)) => lab(alloc, input, out),
        Ok(Some(Work::Audit)) => audit_transcript(alloc, input, out),
        Ok(Some(Work::Why)) => explain_transcript(alloc, input, out),
        Ok(None) => Status::Usage,
        Err(NoMemory) => Status::NoMemory,
    }
}
