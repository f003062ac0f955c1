//! Test cases of a queue of timers: the order in which they come due, and how many comparisons its changes take.

ghost use Rattle.std.specs.Prelude.{◌<◌, ◌≤◌, ◌+◌, ◌*◌};
ghost use Rattle.std.specs.FinMap as map;

use crate::compared::{Compared, key};
use counted_search::{add, take_out};
use std::cell::Cell;
use std::test::Fail;
use timer_queue::{Counted, Ledger, Plain, Queue, Steps};

/// How many keys the queues have, fewer than 2^8.
const KEYS: usize = 192;

/// Sets a key: two searches, each of at most eight comparisons.
fn set<L: Ledger>(queue: &mut Queue<KEYS>, key: usize, due: u64, steps: &mut Steps<L>)
    requires { key < 192 }
    ensures { steps.new ≤ steps.old + 16 }
{
    queue.set(key, due, steps);
}

/// Clears a key: one search.
fn clear<L: Ledger>(queue: &mut Queue<KEYS>, key: usize, steps: &mut Steps<L>)
    requires { key < 192 }
    ensures { steps.new ≤ steps.old + 8 }
{
    queue.clear(key, steps);
}

/// A timer as a key that counts its comparisons: the later moment is before, and of two at one moment the greater key.
fn timer(number: usize, due: u64, compared: &Cell<u64>) -> Compared<'_>
    requires number { number < 192 }
    requires due { due < 100 }
{
    key((100 - due) as u32 * 192 + (191 - number) as u32, compared)
}

#[test]
fn the_earliest_moment_is_next(rt: HostRuntime) -> Result<(), Fail> {
    let mut queue = Queue::<KEYS>::new(rt.alloc())?;
    let mut steps = Steps::new(Plain);
    assert_eq!(rt; queue.next_due(), None);
    set(&mut queue, 8, 70, &mut steps);
    set(&mut queue, 189, 50, &mut steps);
    set(&mut queue, 4, 60, &mut steps);
    assert_eq!(rt; queue.next_due(), Some(50));
    set(&mut queue, 189, 80, &mut steps);
    assert_eq!(rt; queue.next_due(), Some(60));
    clear(&mut queue, 4, &mut steps);
    assert_eq!(rt; queue.next_due(), Some(70));
    Ok(())
}

#[test]
fn due_keys_come_in_order(rt: HostRuntime) -> Result<(), Fail> {
    let mut queue = Queue::<KEYS>::new(rt.alloc())?;
    let mut steps = Steps::new(Plain);
    let mut due = Vec::with_capacity(rt.alloc(), KEYS)?;
    for (key, at) in [(11, 10), (9, 20), (4, 20), (6, 21)] {
        set(&mut queue, key, at, &mut steps);
    }
    queue.take_due(20, &mut due, &mut steps);
    assert_eq!(rt; due.as_slice(), [4, 9, 11].as_slice());
    assert_eq!(rt; queue.next_due(), Some(21));
    Ok(())
}

#[test]
fn a_full_queue_changes_in_few_steps(rt: HostRuntime) -> Result<(), Fail> {
    let mut queue = Queue::<KEYS>::new(rt.alloc())?;
    let mut due = Vec::with_capacity(rt.alloc(), KEYS)?;
    for turn in 0..2 {
        for key in 0..KEYS {
            let mut steps = Steps::new(Counted { steps: 0 });
            set(&mut queue, key, key as u64 % 7 + turn, &mut steps);
            assert!(rt; steps.ledger().steps <= 16);
        }
    }
    for key in 0..KEYS / 2 {
        let mut steps = Steps::new(Counted { steps: 0 });
        clear(&mut queue, key, &mut steps);
        assert!(rt; steps.ledger().steps <= 8);
    }
    assert_eq!(rt; queue.next_due(), Some(1));
    let mut steps = Steps::new(Counted { steps: 0 });
    queue.take_due(7, &mut due, &mut steps);
    assert!(rt; steps.ledger().steps <= 96 * 16);
    assert_eq!(rt; due.len(), 96);
    assert_eq!(rt; queue.next_due(), None);
    Ok(())
}

/// The same timers are kept as keys that count their comparisons: the queue's ledger has as many.
#[test]
#[tactic(auto, using(counted_search::proofs::Edits::sorted_none))]
fn each_comparison_of_a_queue_is_a_step(rt: HostRuntime) -> Result<(), Fail> {
    let compared = Cell::new(0);
    let mut queue = Queue::<KEYS>::new(rt.alloc())?;
    let mut steps = Steps::new(Counted { steps: 0 });
    let mut timers = Vec::new(rt.alloc());
    for turn in 0..3 {
        for number in 0..KEYS {
            let before = timer(number, number as u64 % 11 + turn, &compared);
            if turn > 0 {
                take_out(&mut timers, &before, &mut Steps::new(Plain));
            }
            let due = number as u64 % 11 + turn + 1;
            add(
                &mut timers,
                timer(number, due, &compared),
                &mut Steps::new(Plain),
            )?;
            set(&mut queue, number, due, &mut steps);
            assert_eq!(rt; steps.ledger().steps, compared.get());
        }
    }
    for number in 0..KEYS {
        let last = timer(number, number as u64 % 11 + 3, &compared);
        take_out(&mut timers, &last, &mut Steps::new(Plain));
        clear(&mut queue, number, &mut steps);
        assert_eq!(rt; steps.ledger().steps, compared.get());
    }
    assert!(rt; timers.is_empty());
    assert_eq!(rt; queue.next_due(), None);
    Ok(())
}
