//! The program: it makes the standard streams and the devices, says what it is where that alone is asked, and ends with
//! the status of the top call.
#![tactic(auto)]

mod devices;
mod questions;
mod saying;
mod telling;

ghost use Rattle.std.specs.Prelude.{◌≡◌};
ghost use Rattle.dhcpcd_prog.specs.Endings.{unread};

use devices::devices;
use dhcpcd::{Status, run};
use edges::{StdSink, StdSource};
use questions::{Question, asked};
use saying::say;
use std::env;
use std::io::ErrorKind;
use std::process::ExitCode;
use telling::{HELP, VERSION, tell};

/// The words after the program's name.
fn words(rt: &HostRuntime) -> std::io::Result<Vec<String>> {
    let mut words = Vec::new(rt.alloc());
    for word in env::args(rt)?.skip(1) {
        words.push(word)?;
    }
    Ok(words)
}

/// How many wakes a life may handle: more than come in thirty years, if one comes each second.
const TURNS: u64 = 1_000_000_000;

/// Does the program's work.
fn work(rt: &HostRuntime, words: &[String], out: &mut StdSink) -> Status {
    let mut input = StdSource::new(rt.stdin());
    match devices(rt, words) {
        Ok(mut devices) => run(rt.alloc(), words, &mut input, out, &mut devices, TURNS),
        Err(_) => Status::NoMemory,
    }
}

/// Answers what the words ask.
fn answer(rt: &HostRuntime, words: &[String]) -> Status {
    let mut out = StdSink::new(rt.stdout());
    match asked(words) {
        Question::Help => tell(&mut out, HELP),
        Question::Version => tell(&mut out, VERSION),
        Question::Work => work(rt, words, &mut out),
    }
}

/// Why the words couldn't be had: memory ran out, or one isn't text, and then they are of no form.
fn unread(kind: ErrorKind) -> Status
    ensures { result ≡ unread kind }
{
    match kind {
        ErrorKind::InvalidData => Status::Usage,
        _ => Status::NoMemory,
    }
}

fn main(rt: HostRuntime) -> ExitCode {
    let status = match words(&rt) {
        Ok(words) => answer(&rt, &words),
        Err(error) => unread(error.kind()),
    };
    say(&rt, status);
    ExitCode::from(status.number())
}
