//! One life of `live` for each line of the input, over a machine in memory: calls of which some fail, reads and writes
//! that come short, datagrams of strangers, a clock that goes on with each wait. A line has what is to be told of the
//! life, `all` or `failed` lines of its transcript, and three words for each call that fails: the part of the machine,
//! the number of the call from 1, and the kind of its error. `turns N allowed` says how many wakes it may handle.
#![tactic(auto)]

mod cases;
mod child;
mod failing;
mod folder;
mod lives;
mod wire;

use cases::{Case, Lines};
use lives::{Ended, live};
use std::io;
use world_mem::MemSink;

/// Prints the line of a transcript, if it's to be told.
fn tell_line(rt: &HostRuntime, lines: Lines, line: &str) -> io::Result<()> {
    if lines == Lines::All || line.ends_with(" failed") {
        println!(rt; "{line}")?;
    }
    Ok(())
}

fn tell_end(rt: &HostRuntime, ended: &Ended) -> io::Result<()> {
    match ended.kept {
        Some(size) => println!(rt; "{:?}, a lease of {size} bytes", ended.status),
        None => println!(rt; "{:?}, no lease", ended.status),
    }
}

/// Lives the life of a case, and prints what became of it.
fn tell(rt: &HostRuntime, case: &Case) -> io::Result<()> {
    let alloc = rt.alloc();
    let mut out = MemSink::new(alloc, Vec::new(alloc));
    let Ok(ended) = live(alloc, case, &mut out) else {
        return println!(rt; "no memory");
    };
    let transcript = String::from_utf8_lossy(alloc, out.bytes())?;
    for line in transcript.lines() {
        tell_line(rt, case.lines, line)?;
    }
    tell_end(rt, &ended)
}

fn main(rt: HostRuntime) -> io::Result<()> {
    for line in rt.lines(rt.alloc()) {
        let line = line?;
        println!(rt; "> {line}")?;
        match Case::read(rt.alloc(), &line)? {
            Some(case) => tell(&rt, &case)?,
            None => println!(rt; "no such line")?,
        }
    }
    Ok(())
}
