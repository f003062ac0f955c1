//! What hooks are told of leases.

use hook_env::{Held, Situation, job};
use lease_text::read_lease4;
use lease6_text::read_lease6;
use net_types::{IfIndex, IfSpec, Mac, Name, NoMemory, append_text};
use std::alloc::Global;
use world::{HookVar, Reason};

/// An event of eth0, which has carrier.
fn situation<'a>(reason: Reason, held_before: Held<'a>, held_now: Held<'a>) -> Situation<'a> {
    Situation {
        reason,
        interface: IfSpec {
            index: IfIndex { number: 1 },
            name: Name {
                bytes: *b"eth0\0\0\0\0\0\0\0\0\0\0\0",
                len: 4,
            },
            mac: Mac {
                bytes: [2, 0, 0, 0, 0, 1],
            },
        },
        metric: 1001,
        up: true,
        script: "/etc/hook",
        env: &[],
        held_before,
        held_now,
    }
}

/// The script of an event's job, and its variables, each behind a bar.
fn job_said(alloc: Global, situation: &Situation<'_>) -> Result<String, NoMemory> {
    let made = job(alloc, situation)?;
    let mut said = made.script.to_string(alloc)?;
    for variable in &made.vars {
        append_text(
            format_args!("|{}={}", variable.name, variable.value),
            &mut said,
        )?;
    }
    Ok(said)
}

/// A lease that was bound, where the configuration has a variable of its own.
fn bound_said(alloc: Global, lease: &[u8]) -> Result<Option<String>, NoMemory> {
    let Ok(lease) = read_lease4(alloc, lease) else {
        return Ok(None);
    };
    let site = HookVar {
        name: "SITE".to_string(alloc)?,
        value: "a b".to_string(alloc)?,
    };
    let env = vec![in alloc; site]?;
    let mut bound = situation(Reason::Bound, Held::Leased4(&lease), Held::Leased4(&lease));
    bound.env = &env;
    Ok(Some(job_said(alloc, &bound)?))
}

/// A lease that expired.
fn expired_said(alloc: Global, lease: &[u8]) -> Result<Option<String>, NoMemory> {
    let Ok(lease) = read_lease6(alloc, lease) else {
        return Ok(None);
    };
    let expired = situation(Reason::Expire6, Held::Leased6(&lease), Held::Nothing);
    Ok(Some(job_said(alloc, &expired)?))
}

/// The answer to a vector of jobs.
pub(crate) fn answer(
    alloc: Global,
    word: &str,
    arguments: &[Vec<u8>],
) -> Result<Option<String>, NoMemory> {
    match (word, arguments) {
        ("bound4", [lease]) => bound_said(alloc, lease),
        ("expired6", [lease]) => expired_said(alloc, lease),
        _ => Ok(None),
    }
}
