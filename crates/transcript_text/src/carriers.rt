//! The interfaces with carrier.
ghost use Rattle.std.specs.Prelude.{◌≡◌, ◌++◌, ◌≤◌, OnOk, OnErr};
ghost use Rattle.script_model.specs.IfaceSets.{is_up};
ghost use Rattle.script_model.specs.Lines.{up_text};
ghost use Rattle.transcript_text.specs.Carriers.{next_text};

use crate::appending::append_both;
use itoa::Buffer;
use net_types::{NoMemory, append_bytes};

/// One more than the largest number of an interface.
const LIMIT: u32 = 65;

fn is_up(up: u64, index: u32) -> bool
    requires { (1 ≤ index) × (index ≤ 64) }
    ensures { result ≡ is_up up index }
{
    (up >> (index - 1)) % 2 == 1
}

/// Appends one more number of a list, after a comma where another stands before it.
fn append_next(some: bool, number: u32, into: &mut Vec<u8>) -> Result<(), NoMemory>
    ensures ok { OnOk result (into.new.items ≡ into.old.items ++ next_text some number) }
    ensures err { OnErr result (into.new.items ≡ into.old.items) }
{
    let mut digits = Buffer::new();
    let digits = digits.format(number).as_bytes();
    if some {
        append_both(b",", digits, into)
    } else {
        append_bytes(digits, into)
    }
}

/// Appends the numbers of the interfaces whose bits are set, rising, parted by commas, or `-`.
pub fn append_carriers(up: u64, into: &mut Vec<u8>) -> Result<(), NoMemory>
    ensures ok { OnOk result (into.new.items ≡ into.old.items ++ up_text up) }
    ensures err { OnErr result (into.new.items ≡ into.old.items) }
{
    let len = into.len();
    let mut some = false;
    for index in 1..LIMIT {
        if is_up(up, index) {
            if let Err(error) = append_next(some, index, into) {
                into.truncate(len);
                return Err(error);
            }
            some = true;
        }
    }
    if some {
        Ok(())
    } else {
        append_bytes(b"-", into)
    }
}
