//! The vectors of the standard input, answered on the standard output.

use crate::bytes_of;
use net_types::NoMemory;
use std::alloc::Global;
use std::io;

/// What answers vectors.
pub trait Answers {
    /// What it answers to a word and its arguments, or none where there is no such call.
    fn answer(
        &mut self,
        alloc: Global,
        word: &str,
        arguments: &[Vec<u8>],
    ) -> Result<Option<String>, NoMemory>;
}

/// The bytes of each argument, or none where one isn't of the form.
fn arguments_of(alloc: Global, text: &str) -> Result<Option<Vec<Vec<u8>>>, NoMemory> {
    let mut arguments = Vec::new(alloc);
    for argument in text.split(" | ") {
        let Some(bytes) = bytes_of(alloc, argument)? else {
            return Ok(None);
        };
        arguments.push(bytes)?;
    }
    Ok(Some(arguments))
}

/// The answers to each front of the last argument, each with the length of the first front that has it.
fn fronts<A: Answers>(
    answers: &mut A,
    alloc: Global,
    word: &str,
    mut arguments: Vec<Vec<u8>>,
) -> Result<Option<String>, NoMemory> {
    let Some(whole) = arguments.pop() else {
        return Ok(None);
    };
    let mut told = String::new(alloc);
    let mut last = String::new(alloc);
    for len in 0..=whole.len() {
        arguments.push(whole[..len].to_vec(alloc)?)?;
        let Some(answer) = answers.answer(alloc, word, &arguments)? else {
            return Ok(None);
        };
        arguments.pop();
        if len == 0 || answer != last {
            told.push_str(format!(in alloc; "{len}: {answer}; ")?.as_str())?;
            last = answer;
        }
    }
    Ok(Some(told))
}

/// The answer to a vector, or none where it isn't of the form.
fn answer_to<A: Answers>(
    answers: &mut A,
    alloc: Global,
    vector: &str,
) -> Result<Option<String>, NoMemory> {
    let (is_of_fronts, call) = match vector.strip_prefix("fronts ") {
        Some(call) => (true, call),
        None => (false, vector),
    };
    let (word, text) = call.split_once(' ').unwrap_or((call, ""));
    let Some(arguments) = arguments_of(alloc, text)? else {
        return Ok(None);
    };
    if is_of_fronts {
        fronts(answers, alloc, word, arguments)
    } else {
        answers.answer(alloc, word, &arguments)
    }
}

/// Answers the vectors of the standard input.
pub fn answer_all<A: Answers>(rt: &HostRuntime, answers: &mut A) -> io::Result<()> {
    for line in rt.lines(rt.alloc()) {
        let line = line?;
        if line.is_empty() || line.starts_with('#') {
            println!(rt; "{line}")?;
            continue;
        }
        match answer_to(answers, rt.alloc(), &line) {
            Ok(Some(answer)) => println!(rt; "{line} = {answer}")?,
            Ok(None) => println!(rt; "{line} is no vector")?,
            Err(NoMemory) => println!(rt; "{line}: no memory")?,
        }
    }
    Ok(())
}
