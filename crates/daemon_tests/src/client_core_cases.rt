//! A test that a turn of the client over 64 interfaces asks only those that are due or concerned, and that a stop asks
//! all.

ghost use Rattle.std.specs.Prelude.{◌≡◌, map, IfOk};
ghost use Rattle.net_types.specs.Moments.{IsMoment};
ghost use Rattle.world.specs.Rows.{IsInterface};
ghost use Rattle.client_model.specs.Fitting.{AreBeginnings, FitsBeginning};
ghost use Rattle.client_core.specs.IfaceMachines.Beginnings.{beginning_of};

use crate::interfaces::{DUID, managed};
use client_core::{Beginning, Core, Turn, TurnInput, core_open, step};
use net_types::{IfIndex, NoMemory};
use std::alloc::Global;
use std::test::*;
use v6_options::Duid;
use world::Begin;

/// How many interfaces there are.
const COUNT: u32 = 64;

fn beginning(alloc: Global, index: IfIndex) -> Result<Beginning, Fail>
    requires { IsInterface index.number }
    ensures { IfOk result (λ beginning. FitsBeginning (beginning_of beginning)) }
{
    let managed = managed(alloc, index)?;
    let Some(duid) = Duid::new(alloc, &DUID)? else {
        return Err(Fail::from(NoMemory));
    };
    Ok(Beginning {
        managed,
        duid,
        kept4: None,
        kept6: None,
    })
}

fn beginnings(alloc: Global) -> Result<Vec<Beginning>, Fail>
    ensures { IfOk result (λ all. AreBeginnings (map beginning_of all.items)) }
{
    let mut all = Vec::new(alloc);
    'numbers: for before in 0..COUNT {
        let index = IfIndex { number: before + 1 };
        all.push(beginning(alloc, index)?)?;
    }
    Ok(all)
}

/// The client over all interfaces, of which the first has carrier.
fn core(alloc: Global) -> Result<Core, Fail> {
    let begin = Begin {
        at: 1000,
        salt: 0,
        up: 1,
    };
    let opened = core_open(alloc, beginnings(alloc)?, &[], begin)?;
    Ok(opened.core)
}

/// A turn in which time passes alone.
fn quiet(at: u64) -> Turn<'static>
    ensures { result.at ≡ at }
{
    Turn {
        at,
        salt: 0,
        unsent: 0,
        input: TurnInput::Quiet,
    }
}

/// The client after a turn, how often a machine was asked when it is due, and how many interfaces brought other rows.
fn asked(core: Core, turn: Turn<'_>) -> Result<(Core, (u64, u64)), NoMemory>
    requires { IsMoment turn.at }
{
    let stepped = step(core, turn)?;
    Ok((stepped.core, (stepped.looks, stepped.changes)))
}

/// Each of the 64 interfaces has three machines, of which each is asked twice in a turn of its interface.
#[test]
fn a_turn_asks_those_alone_that_are_concerned(rt: HostRuntime) -> Result<(), Fail> {
    // the first interface is due, and then none
    let (core, due) = asked(core(rt.alloc())?, quiet(1001))?;
    let (core, idle) = asked(core, quiet(1002))?;
    let input = TurnInput::Carrier {
        iface: 40,
        up: true,
    };
    let carrier = Turn {
        input,
        ..quiet(1002)
    };
    let (core, called) = asked(core, carrier)?;
    // frames of the first two were refused, and the one with the new carrier is due
    let refused = Turn {
        unsent: 3,
        ..quiet(1003)
    };
    let (core, unsent) = asked(core, refused)?;
    let (core, rested) = asked(core, quiet(1003))?;
    let stop = Turn {
        input: TurnInput::Stop,
        ..quiet(1004)
    };
    let (_, stopped) = asked(core, stop)?;
    assert_eq!(rt;
        [due, idle, called, unsent, rested, stopped],
        [(6, 0), (0, 0), (6, 1), (18, 0), (0, 0), (384, 2)]
    );
    Ok(())
}
