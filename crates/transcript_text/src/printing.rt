//! The texts of lines: each is a word and its fields.
ghost use Rattle.std.specs.Prelude.{◌≡◌, ◌++◌, OnOk, OnErr};
ghost use Rattle.net_types.specs.Cutting.{StandsInFront};
ghost use Rattle.script_model.specs.Lines.{line_text};
ghost use Rattle.transcript_text.specs.Printed.{line_of};

use crate::fields::{
    AnyNet, Came, Carriers, Done, Moment, Names, Polled, Row, Text, Variable, Why, Worded,
};
use crate::lines::TranscriptLine;
use line_grammar::append_line;
use net_types::{Hex, NoMemory};

/// Appends the text of a line, or a front of it where memory runs out.
#[tactic(auto, unfolding(script_model::specs::Lines::line_words), using(std::proofs::Common::append_assoc))]
fn append_text(line: &TranscriptLine<'_>, into: &mut Vec<u8>) -> Result<(), NoMemory>
    ensures ok { OnOk result (into.new.items ≡ into.old.items ++ line_text (line_of line.now)) }
    ensures err { OnErr result (StandsInFront into.old.items into.new.items) }
{
    use TranscriptLine as Line;
    match *line {
        Line::Head => append_line(b"dhcpcd-transcript 1", &(), into),
        Line::Conf(text) => append_line(b"c:", &Text(text), into),
        Line::Notice { line, word } => {
            append_line(b"notice ", &(line, Text(word.as_bytes())), into)
        }
        Line::Interface(spec) => {
            append_line(b"if ", &(spec.index.number, (spec.name, spec.mac)), into)
        }
        Line::Life(number) => append_line(b"life ", &number, into),
        Line::Start(begin) => {
            let up = Worded(b"up ", Carriers(begin.up));
            append_line(b"start ", &(begin.at, (begin.salt, up)), into)
        }
        Line::Asides(names) => append_line(b"store list ok", &Names(names), into),
        Line::AsidesFailed => append_line(b"store list failed", &(), into),
        Line::Wrote { name, bytes, done } => {
            let file = (Text(name.as_bytes()), Hex(bytes));
            append_line(b"store write ", &(file, Done(done)), into)
        }
        Line::Synced { name, done } => {
            append_line(b"store sync ", &(Text(name.as_bytes()), Done(done)), into)
        }
        Line::Renamed { name, done } => {
            append_line(b"store rename ", &(Text(name.as_bytes()), Done(done)), into)
        }
        Line::Removed { name, done } => {
            append_line(b"store remove ", &(Text(name.as_bytes()), Done(done)), into)
        }
        Line::Settled { done } => append_line(b"store settle ", &Done(done), into),
        Line::Read { name, reading } => {
            append_line(b"store read ", &(Text(name.as_bytes()), reading), into)
        }
        Line::Turn {
            at,
            salt,
            event,
            bytes,
        } => append_line(b"turn ", &(at, (salt, Came { event, bytes })), into),
        Line::HookPolled { number, answer } => {
            append_line(b"hook poll ", &(number, Polled(answer)), into)
        }
        Line::HookAbandoned(number) => append_line(b"hook abandon ", &number, into),
        Line::HookDropped {
            number,
            reason,
            name,
        } => {
            let job = (number, (Why(reason), Text(name.as_bytes())));
            append_line(b"hook drop ", &job, into)
        }
        Line::HookStarted {
            number,
            reason,
            name,
            done,
        } => {
            let job = (number, (Why(reason), Text(name.as_bytes())));
            append_line(b"hook start ", &(job, Done(done)), into)
        }
        Line::Variable { name, value } => {
            let variable = Variable {
                name: name.as_bytes(),
                value: value.as_bytes(),
            };
            append_line(b"var ", &variable, into)
        }
        Line::Send {
            iface,
            bytes,
            taken,
        } => append_line(b"send ", &((iface.number, Hex(bytes)), Done(taken)), into),
        Line::HostListed { count } => append_line(b"host list ok ", &count, into),
        Line::Row(row) => append_line(b"row ", &Row(row), into),
        Line::HostListFailed => append_line(b"host list failed", &(), into),
        Line::HostDel { row, done } => append_line(b"host del ", &(Row(row), Done(done)), into),
        Line::HostAdd { row, done } => append_line(b"host add ", &(Row(row), Done(done)), into),
        Line::Until(moment) => append_line(b"until ", &Moment(moment), into),
        Line::Hold { iface, net } => append_line(b"hold addr ", &(iface.number, AnyNet(net)), into),
        Line::EndOfLife => append_line(b"end", &(), into),
    }
}

/// Appends the text of a line; where memory runs out the bytes are as before.
pub fn print_line(line: &TranscriptLine<'_>, into: &mut Vec<u8>) -> Result<(), NoMemory>
    ensures ok { OnOk result (into.new.items ≡ into.old.items ++ line_text (line_of line.now)) }
    ensures err { OnErr result (into.new.items ≡ into.old.items) }
{
    let len = into.len();
    if let Err(error) = append_text(line, into) {
        into.truncate(len);
        return Err(error);
    }
    Ok(())
}
