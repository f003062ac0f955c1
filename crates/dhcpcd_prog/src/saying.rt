//! The line on standard error that gives the reason where the program ends without success.

use dhcpcd::Status;
use std::io::Result;

/// The words that the program takes.
const FORMS: &str =
    "replay / check / live PORT PEER DIR SCRIPT IFACE.. / make N / dump / import NAME MAC / lab / audit / audit why";

fn line(rt: &HostRuntime, status: Status) -> Result<()> {
    match status {
        Status::Done => Ok(()),
        Status::Usage => eprintln!(rt; "dhcpcd: usage: {FORMS}"),
        Status::Script(fault) => eprintln!(rt; "dhcpcd: {fault}"),
        Status::Conf(fault) => eprintln!(rt; "dhcpcd: {fault}"),
        Status::ReadFault => eprintln!(rt; "dhcpcd: read failed"),
        Status::WriteFault => eprintln!(rt; "dhcpcd: write failed"),
        Status::LinkFault => eprintln!(rt; "dhcpcd: link failed"),
        Status::TurnsOver => eprintln!(rt; "dhcpcd: turns used up"),
        Status::TooLong => eprintln!(rt; "dhcpcd: input too long"),
        Status::NoMemory => eprintln!(rt; "dhcpcd: no memory"),
        Status::Lease { line } => eprintln!(rt; "dhcpcd: lease line {line}"),
        Status::Capture(cause) => eprintln!(rt; "dhcpcd: capture: {cause}"),
        Status::Schedule { line } => eprintln!(rt; "dhcpcd: schedule line {line}"),
        Status::Transcript { line } => eprintln!(rt; "dhcpcd: transcript line {line}"),
        Status::Unjustified => eprintln!(rt; "dhcpcd: address not justified"),
    }
}

/// Says on standard error why the program ends otherwise than `Done`. A line that can't be written is lost: the exit
/// status says it too.
pub fn say(rt: &HostRuntime, status: Status) {
    let _ = line(rt, status);
}
