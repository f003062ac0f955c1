//! The text of a configuration.
ghost use Rattle.std.specs.Prelude.{map, Ok, IfOk, IfErr};
ghost use Rattle.conf_words.specs.Directives.{shown_line};
ghost use Rattle.conf_text.specs.Configurations.{IsConfOf};
ghost use Rattle.conf_text.specs.Contents.{configuration};
ghost use Rattle.conf_text.specs.Laws.{AreLinesOf, Refuses, RefusesLines};

use crate::answers::{ConfAnswer, ConfCause, fault_at};
use crate::conf::Conf;
use crate::reader::Reader;
use conf_words::{Line, read};
use std::alloc::Global;

/// Takes lines one after another.
fn read_lines(alloc: Global, lines: &[Line<'_>]) -> Result<Conf, ConfAnswer>
    ensures found { IfOk result (λ conf. AreLinesOf (map shown_line lines.now) (configuration conf)) }
    ensures bad { IfErr result (λ answer. RefusesLines (map shown_line lines.now) answer) }
{
    let mut reader = Reader::new(alloc);
    'lines: for line in lines {
        reader.read_line(alloc, line)?;
    }
    Ok(reader.conf)
}

/// The configuration of a text, or its first fault. Linear in the text.
pub fn read_conf(alloc: Global, text: &[u8]) -> Result<Conf, ConfAnswer>
    ensures found { IfOk result (λ conf. IsConfOf text.now (Ok (configuration conf))) }
    ensures bad { IfErr result (λ answer. Refuses text.now answer) }
{
    let reading = read(alloc, text)?;
    let conf = read_lines(alloc, &reading.lines)?;
    match reading.not_text {
        Some(number) => Err(ConfAnswer::Bad(fault_at(number, ConfCause::NotText))),
        None => Ok(conf),
    }
}
