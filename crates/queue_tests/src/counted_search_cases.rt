//! Test cases of sorted lists of keys: what searches and changes give, and that each comparison is counted as a step.

use crate::compared::{counted, key};
use counted_search::{Counted, Plain, Steps, add, beyond, find, first_from, take_out};
use std::cell::Cell;
use std::test::Fail;

/// Searches for each of 192 keys, and for a key in each gap between them.
#[test]
fn each_comparison_of_a_search_is_a_step(rt: HostRuntime) -> Result<(), Fail> {
    let compared = Cell::new(0);
    let mut steps = Steps::new(Counted { steps: 0 });
    let mut keys = Vec::with_capacity(rt.alloc(), 192)?;
    for place in 0..192 {
        keys.push(key(2 * place + 1, &compared))?;
    }
    for number in 0..385 {
        let place = (number / 2) as usize;
        let there = if number % 2 == 1 {
            Ok(place)
        } else {
            Err(place)
        };
        assert_eq!(rt; find(&keys, &key(number, &compared), &mut steps), there);
        counted(&rt, &mut steps, &compared, 8);
    }
    Ok(())
}

/// Each second key up to a number is put in from the greatest on, and the first key from each number on is found.
#[test]
#[tactic(auto, using(counted_search::proofs::Edits::sorted_none))]
fn each_comparison_of_a_change_is_a_step(rt: HostRuntime) -> Result<(), Fail> {
    let compared = Cell::new(0);
    let mut steps = Steps::new(Counted { steps: 0 });
    let mut keys = Vec::new(rt.alloc());
    for number in 0..192 {
        add(
            &mut keys,
            key(2 * (191 - number) + 1, &compared),
            &mut steps,
        )?;
        counted(&rt, &mut steps, &compared, 8);
    }
    for number in 0..384 {
        let first = first_from(&keys, &key(number, &compared), &mut steps);
        assert_eq!(rt; first.map(|key| key.number), Some(number | 1));
        counted(&rt, &mut steps, &compared, 8);
    }
    for number in 0..384 {
        take_out(&mut keys, &key(number, &compared), &mut steps);
        counted(&rt, &mut steps, &compared, 8);
    }
    assert!(rt; keys.is_empty());
    Ok(())
}

#[test]
#[tactic(auto, using(counted_search::proofs::Edits::sorted_none))]
fn keys_stand_in_order_each_once(rt: HostRuntime) -> Result<(), Fail> {
    let mut steps = Steps::new(Plain);
    let mut keys = Vec::new(rt.alloc());
    add(&mut keys, 5u32, &mut steps)?;
    add(&mut keys, 3, &mut steps)?;
    add(&mut keys, 5, &mut steps)?;
    let mut others = Vec::new(rt.alloc());
    add(&mut others, 4u32, &mut steps)?;
    add(&mut others, 5, &mut steps)?;
    let lacked = beyond(rt.alloc(), &keys, &others, &mut steps)?;
    assert_eq!(rt; keys.as_slice(), [3, 5].as_slice());
    assert_eq!(rt; lacked.as_slice(), [3].as_slice());
    assert_eq!(rt; first_from(&keys, &4, &mut steps), Some(&5));
    assert_eq!(rt; first_from(&keys, &6, &mut steps), None);
    Ok(())
}

/// Of 20 keys and 30 others each is met once.
#[test]
#[tactic(auto, using(counted_search::proofs::Edits::sorted_none))]
fn each_comparison_of_two_lists_is_a_step(rt: HostRuntime) -> Result<(), Fail> {
    let compared = Cell::new(0);
    let mut steps = Steps::new(Counted { steps: 0 });
    let mut keys = Vec::new(rt.alloc());
    let mut others = Vec::new(rt.alloc());
    for number in 0..20 {
        add(&mut keys, key(3 * number, &compared), &mut steps)?;
    }
    for number in 0..30 {
        add(&mut others, key(2 * number, &compared), &mut steps)?;
    }
    steps = Steps::new(Counted { steps: 0 });
    compared.set(0);
    let lacked = beyond(rt.alloc(), &keys, &others, &mut steps)?;
    assert_eq!(rt; lacked.len(), 10);
    counted(&rt, &mut steps, &compared, 50);
    Ok(())
}
