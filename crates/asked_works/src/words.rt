//! What the words after the program's name ask for.
ghost use Rattle.std.specs.Prelude.{◌≡◌, [], ◌∷◌, true, map, IfOk, IfErr};
ghost use Rattle.std.specs.String.{string_bytes};
ghost use Rattle.live_words.specs.LiveWords.{BeginsLive, IsLiveRead};
ghost use Rattle.asked_works.specs.Asked.{AsksFor};
ghost use Rattle.asked_works.specs.ImportReading.{IsImportRead, import_at, taken_on_at};
ghost use Rattle.asked_works.specs.MakeReading.{IsMakeRead, make_at, rounds_at};

use live_words::{Interfaces, LiveWords, read_live};
use made_script::MOST_ROUNDS;
use net_types::{Mac, Name, mac_of, name_of, number_of};
use std::alloc::Global;
use world::NoMemory;

/// On which interface a capture of packets was taken.
#[derive(Clone, Copy)]
pub struct Import {
    pub name: Name,
    pub mac: Mac,
}

/// A work of the top call.
#[derive(Drop)]
pub enum Work {
    /// `replay`: a script is read, and its transcript written.
    Replay,
    /// `check`: a configuration is read, and its notices are written.
    Check,
    /// `live`: a configuration is read, and these interfaces are run.
    Live(Interfaces),
    /// `make`: a script of so many rounds is lived in memory.
    Make(u64),
    /// `dump`: a lease file is read, and its variables are written.
    Dump,
    /// `import`: a capture of packets on this interface is read, and its script written.
    Import(Import),
    /// `lab`: a schedule of clients and their server is read, and what they do is written.
    Lab,
    /// `audit`: a transcript is read, and the verdict on it written.
    Audit,
    /// `audit why`: the same, and after a yes why each address may be held.
    Why,
}

fn is_same(given: &str, word: &str) -> bool
    ensures yes { result ≡ true → given.now ≡ word.now }
    ensures no { given.now ≡ word.now → result ≡ true }
{
    given == word
}

/// Whether the words are this one, and no other.
#[tactic(auto, using(crate::proofs::OneWord::one_word))]
pub fn is_alone(words: &[String], word: &str) -> bool
    ensures yes { result ≡ true → map string_bytes words.now ≡ word.now ∷ [] }
    ensures no { map string_bytes words.now ≡ word.now ∷ [] → result ≡ true }
{
    match words {
        [only] => is_same(only.as_str(), word),
        _ => false,
    }
}

/// Whether the words are these two, and no other.
#[tactic(auto, using(crate::proofs::OneWord::two_words))]
fn are_two(words: &[String], first: &str, second: &str) -> bool
    ensures yes { result ≡ true → map string_bytes words.now ≡ first.now ∷ second.now ∷ [] }
    ensures no { map string_bytes words.now ≡ first.now ∷ second.now ∷ [] → result ≡ true }
{
    match words {
        [one, other] => is_same(one.as_str(), first) && is_same(other.as_str(), second),
        _ => false,
    }
}

/// The rounds that a word spells.
#[tactic(auto, unfolding(crate::specs::MakeReading::rounds_at))]
fn rounds_of(word: &str) -> Option<u64>
    ensures { result ≡ rounds_at word.now }
{
    let rounds = number_of(word.as_bytes(), MOST_ROUNDS + 1)?;
    if rounds >= 1 { Some(rounds) } else { None }
}

#[tactic(auto, unfolding(crate::specs::MakeReading::make_at))]
fn make_of(words: &[String]) -> Option<u64>
    ensures { result ≡ make_at (map string_bytes words.now) }
{
    match words {
        [work, rounds] => {
            if work.as_str() == "make" {
                rounds_of(rounds)
            } else {
                None
            }
        }
        _ => None,
    }
}

/// The rounds that `make N` names, or none where the words aren't of this form: a number from 1 to 100, without leading
/// zeros or sign.
#[tactic(auto, using(crate::proofs::MakeLaws::make_read))]
fn make_rounds(words: &[String]) -> Option<u64>
    ensures { IsMakeRead (map string_bytes words.now) result }
{
    make_of(words)
}

/// On which interface a capture was taken.
#[tactic(auto, unfolding(crate::specs::ImportReading::taken_on_at))]
fn taken_on(name: &str, mac: &str) -> Option<Import>
    ensures { result ≡ taken_on_at name.now mac.now }
{
    let name = name_of(name.as_bytes())?;
    let mac = mac_of(mac.as_bytes())?;
    Some(Import { name, mac })
}

#[tactic(auto, unfolding(crate::specs::ImportReading::import_at))]
fn import_of(words: &[String]) -> Option<Import>
    ensures { result ≡ import_at (map string_bytes words.now) }
{
    match words {
        [work, name, mac] => {
            if work.as_str() == "import" {
                taken_on(name, mac)
            } else {
                None
            }
        }
        _ => None,
    }
}

/// The interface that `import NAME MAC` names, or none where the words aren't of this form.
#[tactic(auto, using(crate::proofs::ImportLaws::import_read))]
fn imported_on(words: &[String]) -> Option<Import>
    ensures { IsImportRead (map string_bytes words.now) result }
{
    import_of(words)
}

/// The interfaces that the words of `live` name, or none where the words aren't of its form.
fn live_interfaces(alloc: Global, words: &[String]) -> Result<Option<Interfaces>, NoMemory>
    ensures read { IfOk result (IsLiveRead (map string_bytes words.now)) }
    ensures wants { IfErr result (λ _. BeginsLive (map string_bytes words.now)) }
{
    match read_live(alloc, words)? {
        Some(LiveWords { interfaces, .. }) => Ok(Some(interfaces)),
        None => Ok(None),
    }
}

/// The work that words ask for. Only words that begin with `live` may want memory.
pub fn work_of(alloc: Global, words: &[String]) -> Result<Option<Work>, NoMemory>
    ensures asked { IfOk result (AsksFor (map string_bytes words.now)) }
    ensures wants { IfErr result (λ _. BeginsLive (map string_bytes words.now)) }
{
    if is_alone(words, "replay") {
        return Ok(Some(Work::Replay));
    }
    if is_alone(words, "check") {
        return Ok(Some(Work::Check));
    }
    if is_alone(words, "dump") {
        return Ok(Some(Work::Dump));
    }
    if is_alone(words, "lab") {
        return Ok(Some(Work::Lab));
    }
    if is_alone(words, "audit") {
        return Ok(Some(Work::Audit));
    }
    if are_two(words, "audit", "why") {
        return Ok(Some(Work::Why));
    }
    if let Some(rounds) = make_rounds(words) {
        return Ok(Some(Work::Make(rounds)));
    }
    if let Some(on) = imported_on(words) {
        return Ok(Some(Work::Import(on)));
    }
    match live_interfaces(alloc, words)? {
        Some(interfaces) => Ok(Some(Work::Live(interfaces))),
        None => Ok(None),
    }
}
