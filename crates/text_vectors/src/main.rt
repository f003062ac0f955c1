//! Answers vectors of the crates that read and print addresses, numbers and names.
#![tactic(auto)]

mod addresses;
mod asking;
mod lists;

use net_types::NoMemory;
use std::alloc::Global;
use std::io;
use vector_lines::{Answers, answer_all};

#[derive(Drop)]
struct TextVectors;

impl Answers for TextVectors {
    fn answer(
        &mut self,
        alloc: Global,
        word: &str,
        arguments: &[Vec<u8>],
    ) -> Result<Option<String>, NoMemory> {
        match word {
            "mac" | "name" | "ip4" | "net4" | "within" | "ip6" | "net6" | "printed-net6" => {
                addresses::answer(alloc, word, arguments)
            }
            _ => lists::answer(alloc, word, arguments),
        }
    }
}

fn main(rt: HostRuntime) -> io::Result<()> {
    answer_all(&rt, &mut TextVectors)
}
