//! Answers vectors of a configuration's texts: its lines and words, what a line says, and what is in force for eth0
//! beside eth1 and eth2.
#![tactic(auto)]

mod confs;
mod in_force;
mod lines;

use confs::{conf_said, no_memory_said};
use in_force::{managed_said, set_said};
use lines::{arguments_said, first_line_said, line_said, lines_said, whole_said};
use net_types::NoMemory;
use std::alloc::Global;
use std::io;
use vector_lines::{Answers, answer_all};

#[derive(Drop)]
struct ConfVectors;

/// What is said of a text, by the word that asks.
fn said(alloc: Global, word: &str, text: &[u8]) -> Result<Option<String>, NoMemory> {
    let said = match word {
        "arguments" => arguments_said(alloc, text)?,
        "whole" => whole_said(alloc, text)?,
        "first-line" => first_line_said(alloc, text)?,
        "lines" => lines_said(alloc, text)?,
        "line" => line_said(alloc, text)?,
        "conf" => conf_said(alloc, text)?,
        "no-memory" => no_memory_said(alloc)?,
        "eth0" => set_said(alloc, text)?,
        "managed" => managed_said(alloc, text)?,
        _ => return Ok(None),
    };
    Ok(Some(said))
}

impl Answers for ConfVectors {
    fn answer(
        &mut self,
        alloc: Global,
        word: &str,
        arguments: &[Vec<u8>],
    ) -> Result<Option<String>, NoMemory> {
        match arguments {
            [text] => said(alloc, word, text),
            _ => Ok(None),
        }
    }
}

fn main(rt: HostRuntime) -> io::Result<()> {
    answer_all(&rt, &mut ConfVectors)
}
