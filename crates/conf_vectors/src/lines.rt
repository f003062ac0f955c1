//! The lines of a configuration, and what each of them says.

use conf_directives::directive_said;
use conf_words::{Argument, Form, arguments_of, directive_of, first_line, read, whole_argument};
use net_types::NoMemory;
use std::alloc::Global;

/// `plain(TEXT)` or `quoted(TEXT)`.
fn argument_said(alloc: Global, argument: &Argument<'_>) -> Result<String, NoMemory> {
    let form = match argument.form {
        Form::Plain => "plain",
        Form::Quoted => "quoted",
    };
    let text = String::from_utf8_lossy(alloc, argument.text)?;
    Ok(format!(in alloc; "{form}({text})")?)
}

/// What follows a directive.
pub(crate) fn arguments_said(alloc: Global, about: &[u8]) -> Result<String, NoMemory> {
    let mut said = String::from_str(alloc, "arguments")?;
    for argument in &arguments_of(alloc, about)? {
        said.push(' ')?;
        said.push_str(argument_said(alloc, argument)?.as_str())?;
    }
    Ok(said)
}

/// The one argument that follows a directive.
pub(crate) fn whole_said(alloc: Global, about: &[u8]) -> Result<String, NoMemory> {
    match whole_argument(about) {
        Some(argument) => argument_said(alloc, &argument),
        None => Ok("none".to_string(alloc)?),
    }
}

/// The first line of a text, and how many bytes follow it.
pub(crate) fn first_line_said(alloc: Global, text: &[u8]) -> Result<String, NoMemory> {
    match first_line(text) {
        Some((line, rest)) => {
            let line = String::from_utf8_lossy(alloc, line)?;
            Ok(format!(in alloc; "{line}, and {} bytes", rest.len())?)
        }
        None => Ok("none".to_string(alloc)?),
    }
}

/// The lines of a text with their numbers, and the first one that isn't text.
pub(crate) fn lines_said(alloc: Global, text: &[u8]) -> Result<String, NoMemory> {
    let reading = read(alloc, text)?;
    let mut said = String::from_str(alloc, "lines")?;
    for line in &reading.lines {
        let directive = String::from_utf8_lossy(alloc, line.directive)?;
        let about = String::from_utf8_lossy(alloc, line.about)?;
        let told = format!(in alloc; " {}:{directive}({about})", line.number)?;
        said.push_str(told.as_str())?;
    }
    if let Some(number) = reading.not_text {
        said.push_str(format!(in alloc; ", line {number} is no text")?.as_str())?;
    }
    Ok(said)
}

/// What a line says: its directive, `-` where there is none, or `bad`; and each word that is noticed, behind a bar.
pub(crate) fn line_said(alloc: Global, text: &[u8]) -> Result<String, NoMemory> {
    let Some(line) = directive_of(1, text) else {
        return Ok("no line".to_string(alloc)?);
    };
    let Some(line) = directive_said(alloc, line)? else {
        return Ok("bad".to_string(alloc)?);
    };
    let mut said = match &line.directive {
        Some(directive) => format!(in alloc; "{directive:?}")?,
        None => "-".to_string(alloc)?,
    };
    for word in &line.notices {
        said.push_str("|")?;
        said.push_str(&*String::from_utf8_lossy(alloc, word)?)?;
    }
    Ok(said)
}
