//! The lines of a transcript before its first life: the configuration, the notices about it, and the interfaces.

ghost use Rattle.std.specs.Prelude.{◌≡◌, ◌++◌, ◌<◌, [], ◌∷◌, IfOk, OnOk, map, length};
ghost use Rattle.script_model.specs.Lines as lines;
ghost use Rattle.replay_text.specs.ScriptContent.{conf_lines, script_of};
ghost use Rattle.transcript_text.specs.Printed.{line_of};
ghost use Rattle.typed_lines.specs.TypedLines.{IsTyped};
ghost use Rattle.device_calls.specs.Printing.{Prints};
ghost use Rattle.conf_text.specs.Contents.{notice_content};
ghost use Rattle.text_works.specs.Heads.{head_lines, notice_line};
ghost use Rattle.text_works.specs.Heads.{unended, text_lines, live_head};

use conf_text::Notice;
use net_types::{IfSpec, split_at_byte};
use replay_text::Script;
use transcript_text::{TranscriptLine, print_line};
use world::NoMemory;

/// What stands before the one life of `live`.
#[derive(Clone, Copy)]
pub struct Start<'a> {
    /// The text of the configuration.
    pub text: &'a [u8],
    pub notices: &'a [Notice],
    pub specs: &'a [IfSpec],
}

/// Appends a line; what it tells is within the types that hold it.
#[tactic(auto, using(device_calls::proofs::Printings::prints_line))]
pub fn say(line: &TranscriptLine<'_>, text: &mut Vec<u8>) -> Result<(), NoMemory>
    requires { IsTyped (line_of line.now) }
    ensures { OnOk result (Prints text.old.items text.new.items (line_of line.now ∷ [])) }
{
    print_line(line, text)
}

/// Appends the lines that end with a line feed, and answers what stands after the last of these.
fn say_ended<'a>(conf: &'a [u8], text: &mut Vec<u8>) -> Result<&'a [u8], NoMemory>
    ensures lines { IfOk result (λ _. Prints text.old.items text.new.items (map lines.Conf (conf_lines conf.now))) }
    ensures rest { IfOk result (λ rest. rest.now ≡ unended conf.now) }
{
    let mut rest = conf;
    'lines: loop {
        match split_at_byte(rest, b'\n') {
            None => return Ok(rest),
            Some((line, after)) => {
                say(&TranscriptLine::Conf(line), text)?;
                rest = after;
            }
        }
    }
}

/// Appends the lines of a configuration; the last one may lack its line feed.
#[tactic(auto, using(device_calls::proofs::Printings::prints_then, crate::proofs::HeadLines::confs_typed))]
fn say_text(conf: &[u8], text: &mut Vec<u8>) -> Result<(), NoMemory>
    ensures { OnOk result (Prints text.old.items text.new.items (map lines.Conf (text_lines conf.now))) }
{
    let rest = say_ended(conf, text)?;
    if !rest.is_empty() {
        say(&TranscriptLine::Conf(rest), text)?;
    }
    Ok(())
}

#[tactic(auto, using(device_calls::proofs::Printings::prints_none, crate::proofs::HeadLines::interfaces_more))]
fn say_interfaces(ifaces: &[IfSpec], text: &mut Vec<u8>) -> Result<(), NoMemory>
    ensures { OnOk result (Prints text.old.items text.new.items (map lines.Interface ifaces.now)) }
{
    for spec in ifaces {
        say(&TranscriptLine::Interface(*spec), text)?;
    }
    Ok(())
}

/// Appends a line for each word of the configuration that does nothing.
#[tactic(auto, using(device_calls::proofs::Printings::prints_none, crate::proofs::HeadLines::notices_more))]
pub fn say_notices(notices: &[Notice], text: &mut Vec<u8>) -> Result<(), NoMemory>
    ensures { OnOk result (Prints text.old.items text.new.items (map notice_line (map notice_content notices.now))) }
{
    for notice in notices {
        let Notice { line, word } = notice;
        say(
            &TranscriptLine::Notice {
                line: *line,
                word: word.as_str(),
            },
            text,
        )?;
    }
    Ok(())
}

/// Appends the lines before the first life.
#[tactic(auto, using(device_calls::proofs::Printings::prints_then), unfolding(crate::specs::Heads::head_lines))]
pub fn say_head(script: &Script, notices: &[Notice], text: &mut Vec<u8>) -> Result<(), NoMemory>
    ensures { OnOk result
        (Prints text.old.items text.new.items (head_lines (script_of script.now) (map notice_content notices.now))) }
{
    say(&TranscriptLine::Head, text)?;
    say_ended(&script.conf, text)?;
    say_notices(notices, text)?;
    say_interfaces(&script.ifaces, text)?;
    Ok(())
}

/// Appends the lines before the one life of `live`: the head, and the life's number.
#[tactic(auto, using(device_calls::proofs::Printings::prints_then), unfolding(crate::specs::Heads::live_head))]
pub fn say_live_head(start: &Start<'_>, text: &mut Vec<u8>) -> Result<(), NoMemory>
    ensures { OnOk result
        (Prints text.old.items text.new.items
        (live_head start.now.text.now (map notice_content start.now.notices.now) start.now.specs.now)) }
{
    say(&TranscriptLine::Head, text)?;
    say_text(start.text, text)?;
    say_notices(start.notices, text)?;
    say_interfaces(start.specs, text)?;
    say(&TranscriptLine::Life(1), text)
}
