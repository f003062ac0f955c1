//! Answers vectors of what hooks are told, and of the resolver's file.
#![tactic(auto)]

mod asking;
mod jobs;
mod resolvers;

use net_types::NoMemory;
use std::alloc::Global;
use std::io;
use vector_lines::{Answers, answer_all};

#[derive(Drop)]
struct HookVectors;

impl Answers for HookVectors {
    fn answer(
        &mut self,
        alloc: Global,
        word: &str,
        arguments: &[Vec<u8>],
    ) -> Result<Option<String>, NoMemory> {
        match word {
            "resolver" => resolvers::answer(alloc, arguments),
            _ => jobs::answer(alloc, word, arguments),
        }
    }
}

fn main(rt: HostRuntime) -> io::Result<()> {
    answer_all(&rt, &mut HookVectors)
}
