//! The texts that the program prints about itself: its help and its version.

ghost use Rattle.dhcpcd.specs.TextWorks.Statuses.{HasStatusCause};
ghost use Rattle.dhcpcd_prog.specs.Telling.{IsTold};

use dhcpcd::{Status, write_text};
use world::Sink;

/// What `--help` prints.
pub const HELP: &str = "dhcpcd: a DHCP client daemon

usage: dhcpcd replay < SCRIPT > TRANSCRIPT
       dhcpcd check < CONFIGURATION
       dhcpcd live PORT PEER DIR SCRIPT IFACE.. < CONFIGURATION > TRANSCRIPT
       dhcpcd make N
       dhcpcd dump < LEASEFILE
       dhcpcd import NAME ADDRESS < CAPTURE > SCRIPT
       dhcpcd lab < SCHEDULE
       dhcpcd audit < TRANSCRIPT
       dhcpcd audit why < TRANSCRIPT
       dhcpcd --help
       dhcpcd --version

replay reads a script from standard input, lives it over devices in memory, and
writes the transcript of every call to standard output. check reads a
configuration, writes a line for each word of it that does nothing, and then ok.
live reads a configuration to its end and then runs the interfaces until a stop:
each IFACE is NAME=ADDRESS, and its frames are datagrams between the ports PORT
and PEER of 127.0.0.1. Files lie in DIR; SCRIPT keeps the addresses and routes of
the host, and is the hook where the configuration names none. contrib/linux has
what makes real interfaces of this, and its README.md how to begin.
make lives a script of its own for N rounds, 1 to 100, and counts its calls.
dump writes the variables that hooks are told of a lease file of either family.
import makes a script of a packet capture (pcap, Ethernet) that was taken on the
interface NAME with the hardware address ADDRESS: its frames come in again.
lab reads a schedule of clients and one server on one clock, lives it in memory,
and writes every frame and every lease that is held.
audit reads a transcript. Where each address in it has its reason it writes yes
and how many lives and turns there are, else no, a life, a turn and an address.
audit why adds to a yes the reason of each address that is shown at the end of a
life, with the turns on which it rests.
An input has at most 16777216 bytes.

exit status, with a line on standard error for each but 0:
   0  all was read and written; a life ended
   2  the words are of no form
   3  the input is no script; its first bad line is told
   4  the configuration has a bad line; it is told, counted within it
   5  standard input can't be read
   6  standard output can't be written
   7  the link can't be had, or failed
   8  as many wakes as are allowed were handled
   9  the input is too long
  10  no memory
  11  the input is no transcript; its first bad line is told
  12  a transcript shows an address without a reason; the first is written
  13  the input is no lease file; its first bad line is told
  14  the input is no such capture; the cause is told
  15  the input is no schedule; its first bad line is told
";

/// What `--version` prints.
pub const VERSION: &str = "dhcpcd 0.1.0\n";

/// Writes a text of the program's own.
pub fn tell<O: Sink>(out: &mut O, text: &str) -> Status
    ensures told { IsTold result (O.written out.old) (O.written out.new) text.now }
    ensures cause { HasStatusCause result 0 0 (O.faults out.old) (O.faults out.new) }
{
    match write_text(out, text.as_bytes()) {
        Ok(()) => Status::Done,
        Err(status) => status,
    }
}
