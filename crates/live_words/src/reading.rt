//! The words of `live`, read.
ghost use Rattle.std.specs.Prelude.{◌≡◌, ◌≤◌, false, codes, length, map, option_and_then, option_map, IfOk, IfErr, IfSome};
ghost use Rattle.std.specs.List.{list_any};
ghost use Rattle.std.specs.String.{string_bytes};
ghost use Rattle.clap.specs.Words.{found_of, matched_of, raw_values};
ghost use Rattle.live_words.specs.LiveWords.{BeginsLive, IsLiveRead, SaysLive};
ghost use Rattle.live_words.specs.LiveReading.{ArePlaced, is_live, is_option, live_at, places_at, said_at, said_in, said_of};

use crate::command::{FOLDER, INTERFACES, PEER, PORT, SCRIPT, command};
use crate::iface_words::ifaces_of;
use crate::listed::Interfaces;
use crate::places::{Ports, ports_of};
use clap::ArgMatches;
use clap::error::ErrorKind;
use std::alloc::Global;
use world::NoMemory;

/// What the words of `live` say.
#[derive(Drop)]
pub struct LiveWords<'a> {
    pub ports: Ports,
    /// The folder of the store.
    pub folder: &'a str,
    /// The script of the host and of the hooks.
    pub script: &'a str,
    pub interfaces: Interfaces,
}

/// Whether the first word is `live`.
fn is_live(words: &[String]) -> bool
    ensures { result ≡ is_live (map string_bytes words.now) }
{
    match words.first() {
        Some(work) => work.as_str() == "live",
        None => false,
    }
}

/// Whether a word begins with a hyphen: it would be taken for an option, or for the end of the options.
fn is_option(word: &str) -> bool
    ensures { result ≡ is_option word.now }
{
    match word.as_bytes().first() {
        Some(byte) => *byte == b'-',
        None => false,
    }
}

fn has_option(words: &[String]) -> bool
    ensures { result ≡ list_any (λ word. is_option (string_bytes word)) words.now }
{
    words.iter().any(|word| is_option(word.as_str()))
}

/// The words by their places, or none where they are too few or too many, or a path is empty.
fn matches_of<'a>(alloc: Global, words: &'a [String]) -> Result<Option<ArgMatches<'a>>, NoMemory>
    requires { list_any is_option (map string_bytes words.now) ≡ false }
    ensures { IfOk result (λ found. ArePlaced found (places_at (map string_bytes words.entry.now))) }
{
    match command(alloc)?.try_get_matches_from(words) {
        Ok(matches) => Ok(Some(matches)),
        Err(error) => match error.kind() {
            ErrorKind::OutOfMemory => Err(NoMemory),
            _ => Ok(None),
        },
    }
}

/// What the words say at their places.
fn said_by<'a>(matches: &ArgMatches<'a>) -> Option<LiveWords<'a>>
    requires few { IfSome (option_map raw_values (matched_of (found_of matches.now) (codes "IFACE")))
        (λ words. length words ≤ 64) }
    ensures { option_map said_of result ≡ said_in (found_of matches.now) }
{
    let ports = ports_of(matches.get_str(PORT)?, matches.get_str(PEER)?)?;
    let folder = matches.get_str(FOLDER)?;
    let script = matches.get_str(SCRIPT)?;
    let interfaces = ifaces_of(matches.get_raw(INTERFACES)?)?;
    Some(LiveWords {
        ports,
        folder,
        script,
        interfaces,
    })
}

/// What words without options say.
fn plain_said<'a>(alloc: Global, words: &'a [String]) -> Result<Option<LiveWords<'a>>, NoMemory>
    requires { list_any is_option (map string_bytes words.now) ≡ false }
    ensures { IfOk result
        (λ found. option_map said_of found ≡ option_and_then said_at (places_at (map string_bytes words.entry.now))) }
{
    match matches_of(alloc, words)? {
        Some(matches) => Ok(said_by(&matches)),
        None => Ok(None),
    }
}

#[tactic(auto, using(crate::proofs::PlainLive::plain_lives))]
fn live_of<'a>(alloc: Global, words: &'a [String]) -> Result<Option<LiveWords<'a>>, NoMemory>
    ensures value { IfOk result (λ found. option_map said_of found ≡ live_at (map string_bytes words.entry.now)) }
    ensures wants { IfErr result (λ _. BeginsLive (map string_bytes words.entry.now)) }
{
    if !is_live(words) {
        return Ok(None);
    }
    if has_option(words) {
        return Ok(None);
    }
    plain_said(alloc, words)
}

/// What `live PORT PEER DIR SCRIPT IFACE..` says, or none where the words aren't of this form: a port of its own and
/// one of its peer, both from 1 and unlike; a folder and a script, neither empty nor beginning with `-`; and 1 to 64
/// interfaces as `NAME=ADDRESS`, with unlike names and hardware addresses, numbered from 1 in their order. `words` are
/// all that follow the program's name. Only words that begin with `live` want memory.
#[tactic(auto, using(crate::proofs::LiveLaws::live_read, crate::proofs::LiveLaws::live_says))]
pub fn read_live<'a>(alloc: Global, words: &'a [String]) -> Result<Option<LiveWords<'a>>, NoMemory>
    ensures read { IfOk result
        (λ found. IsLiveRead (map string_bytes words.entry.now) (option_map (λ live. live.interfaces) found)) }
    ensures says { IfOk result (λ found. IfSome found (λ live. SaysLive (map string_bytes words.entry.now) live)) }
    ensures wants { IfErr result (λ _. BeginsLive (map string_bytes words.entry.now)) }
{
    live_of(alloc, words)
}
