//! Test cases of the supervision of hook scripts: how many jobs may wait, how long a child may run, and what follows
//! a failed start.

use hook_child::{
    Dropped, Supervisor, Turned, next_job, not_started, polled, put, running, supervisor_new,
    waiting,
};
use net_types::IfIndex;
use std::alloc::Global;
use std::ops::RangeInclusive;
use std::process::Abort;
use std::test::*;
use world::{HookJob, Poll, Reason};

fn job(alloc: Global) -> HookJob {
    HookJob {
        number: 0,
        reason: Reason::Preinit,
        iface: IfIndex { number: 1 },
        script: String::new(alloc),
        vars: Vec::new(alloc),
    }
}

/// The number of the job that is to be started.
fn to_start(turned: Turned) -> Option<u64> {
    match turned {
        Turned::Start(job) => Some(job.number),
        Turned::Idle | Turned::Abandon => None,
    }
}

/// Whether a poll by which the child still runs abandons it.
fn is_abandoned(s: &mut Supervisor, at: u64) -> bool {
    running(s).is_some() && matches!(polled(s, Poll::Running, at), Turned::Abandon)
}

/// Jobs are put into the line, and have these numbers.
fn puts(rt: &impl Abort, alloc: Global, s: &mut Supervisor, numbers: RangeInclusive<u64>) {
    for number in numbers {
        assert_eq!(rt; put(s, job(alloc)), Ok(number));
    }
}

/// A job is dropped, and this is its number.
fn drops(rt: &impl Abort, alloc: Global, s: &mut Supervisor, number: u64) {
    assert_eq!(rt; put(s, job(alloc)), Err(Dropped { number }));
}

#[test]
fn the_line_has_room_for_1024(rt: HostRuntime) -> Result<(), Fail> {
    let mut s = supervisor_new(rt.alloc())?;
    puts(&rt, rt.alloc(), &mut s, 1..=1024);
    drops(&rt, rt.alloc(), &mut s, 1025);
    assert!(rt; waiting(&s) == 1024);
    assert!(rt; to_start(next_job(&mut s, 0)) == Some(1));
    puts(&rt, rt.alloc(), &mut s, 1026..=1026);
    drops(&rt, rt.alloc(), &mut s, 1027);
    Ok(())
}

#[test]
fn one_job_started_and_1024_waiting(rt: HostRuntime) -> Result<(), Fail> {
    let mut s = supervisor_new(rt.alloc())?;
    puts(&rt, rt.alloc(), &mut s, 1..=1);
    assert!(rt; to_start(next_job(&mut s, 0)) == Some(1));
    puts(&rt, rt.alloc(), &mut s, 2..=1025);
    drops(&rt, rt.alloc(), &mut s, 1026);
    Ok(())
}

#[test]
fn a_child_has_a_minute(rt: HostRuntime) -> Result<(), Fail> {
    let mut s = supervisor_new(rt.alloc())?;
    puts(&rt, rt.alloc(), &mut s, 1..=2);
    assert!(rt; to_start(next_job(&mut s, 5000)) == Some(1));
    // a clock that went back, and the last moment of the minute
    for at in [4000, 64_999] {
        assert!(rt; !is_abandoned(&mut s, at), "at {at}");
    }
    assert!(rt; to_start(next_job(&mut s, 64_999)).is_none());
    assert!(rt; is_abandoned(&mut s, 65_000));
    assert!(rt; running(&s).is_none());
    assert!(rt; to_start(next_job(&mut s, 65_000)) == Some(2));
    Ok(())
}

#[test]
fn a_failed_start_uses_the_job_up(rt: HostRuntime) -> Result<(), Fail> {
    let mut s = supervisor_new(rt.alloc())?;
    puts(&rt, rt.alloc(), &mut s, 1..=2);
    assert!(rt; to_start(next_job(&mut s, 0)) == Some(1));
    if running(&s).is_some() {
        not_started(&mut s);
    }
    assert!(rt; to_start(next_job(&mut s, 0)) == Some(2));
    Ok(())
}
