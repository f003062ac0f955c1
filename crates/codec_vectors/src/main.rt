//! Answers vectors of the crates that read and write frames, and options and messages of DHCPv4.
#![tactic(auto)]

mod asking;
mod frames;
mod messages4;
mod options4;

use net_types::NoMemory;
use std::alloc::Global;
use std::io;
use vector_lines::{Answers, answer_all};

#[derive(Drop)]
struct CodecVectors;

impl Answers for CodecVectors {
    fn answer(
        &mut self,
        alloc: Global,
        word: &str,
        arguments: &[Vec<u8>],
    ) -> Result<Option<String>, NoMemory> {
        match word {
            "eth"
            | "arp"
            | "arp-request"
            | "link-local"
            | "udp4"
            | "udp6"
            | "udp4-frame"
            | "udp6-frame" => frames::answer(alloc, word, arguments),
            "areas" | "option" | "numbers" | "routes" => options4::answer(alloc, word, arguments),
            _ => messages4::answer(alloc, word, arguments),
        }
    }
}

fn main(rt: HostRuntime) -> io::Result<()> {
    answer_all(&rt, &mut CodecVectors)
}
