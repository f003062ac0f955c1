//! Answers vectors of the texts of leases, and steps of the clients that acquire and keep leases.
#![tactic(auto)]

mod asking;
mod client4;
mod client6;
mod texts;

use client4::Run4;
use client6::Run6;
use net_types::NoMemory;
use std::alloc::Global;
use std::io;
use vector_lines::{Answers, answer_all};

/// The clients that the vectors are steps of.
#[derive(Drop)]
struct LeaseVectors {
    run4: Run4,
    run6: Run6,
}

impl Answers for LeaseVectors {
    fn answer(
        &mut self,
        alloc: Global,
        word: &str,
        arguments: &[Vec<u8>],
    ) -> Result<Option<String>, NoMemory> {
        match word {
            "lease4" | "lease6" | "duid" | "duid-of" | "host-address" | "well-formed" | "kept" => {
                texts::answer(alloc, word, arguments)
            }
            "begin4"
            | "restart4"
            | "holds4"
            | "tick4"
            | "up4"
            | "down4"
            | "message4"
            | "conflict4"
            | "unsent4"
            | "release4"
            | "rebind4" => { self.run4.answer(alloc, word, arguments) }
            _ => self.run6.answer(alloc, word, arguments),
        }
    }
}

fn main(rt: HostRuntime) -> io::Result<()> {
    let Ok(run4) = Run4::new(rt.alloc()) else {
        return println!(rt; "no memory");
    };
    let Ok(run6) = Run6::new(rt.alloc()) else {
        return println!(rt; "no memory");
    };
    answer_all(&rt, &mut LeaseVectors { run4, run6 })
}
