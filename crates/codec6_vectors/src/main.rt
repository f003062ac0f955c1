//! Answers vectors of the crates that read and write options, messages and frames of DHCPv6.
#![tactic(auto)]

mod asking;
mod messages6;
mod options6;

use net_types::NoMemory;
use std::alloc::Global;
use std::io;
use vector_lines::{Answers, answer_all};

#[derive(Drop)]
struct Codec6Vectors;

impl Answers for Codec6Vectors {
    fn answer(
        &mut self,
        alloc: Global,
        word: &str,
        arguments: &[Vec<u8>],
    ) -> Result<Option<String>, NoMemory> {
        match word {
            "duid" | "servers6" | "search6" | "nested" => {
                options6::answer(alloc, word, arguments)
            }
            _ => messages6::answer(alloc, word, arguments),
        }
    }
}

fn main(rt: HostRuntime) -> io::Result<()> {
    answer_all(&rt, &mut Codec6Vectors)
}
