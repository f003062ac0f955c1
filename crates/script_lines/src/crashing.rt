//! The words of the line `crash`, read.
ghost use Rattle.std.specs.Prelude.{◌≡◌, option_map};
ghost use Rattle.script_lines.specs.CrashReading.{calls_at, kind_at, crash_at};
ghost use Rattle.script_lines.specs.ScriptContent.{crash_of};

use crate::script::CrashLine;
use net_types::{split_at_byte, u64_of};
use script_model::CrashKind;

/// How many calls pass, or `-` for no limit.
#[tactic(auto, unfolding(crate::specs::CrashReading::calls_at))]
fn calls_of(bytes: &[u8]) -> Option<Option<u64>>
    ensures { result ≡ calls_at bytes.now }
{
    if bytes == b"-".as_slice() {
        return Some(None);
    }
    let calls = u64_of(bytes)?;
    Some(Some(calls))
}

#[tactic(auto, unfolding(crate::specs::CrashReading::kind_at))]
fn kind_of(bytes: &[u8]) -> Option<CrashKind>
    ensures { result ≡ kind_at bytes.now }
{
    if bytes == b"old".as_slice() {
        Some(CrashKind::Old)
    } else if bytes == b"new".as_slice() {
        Some(CrashKind::New)
    } else {
        None
    }
}

/// How the store crashes.
#[tactic(auto, unfolding(crate::specs::CrashReading::crash_at))]
pub fn crash_of(bytes: &[u8]) -> Option<CrashLine>
    ensures { option_map crash_of result ≡ crash_at bytes.now }
{
    let (calls, kind) = split_at_byte(bytes, b' ')?;
    let calls = calls_of(calls)?;
    let kind = kind_of(kind)?;
    Some(CrashLine { calls, kind })
}
