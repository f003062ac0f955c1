//! What a step of the client asks of the devices.
ghost use Rattle.std.specs.Prelude.{◌≡◌, ◌<◌, ◌^◌, List, Option, IfOk, IfErr};
ghost use Rattle.std.specs.List.{AllByRecursion};
ghost use Rattle.world.specs.declared.rows.HostRow.{HostRow};
ghost use Rattle.client_core.specs.IfaceMachines.Outcomes.{sends_in};
ghost use Rattle.client_model.specs.Clients.{rows_of};
ghost use Rattle.client_core.specs.Stepping.{IsOnInterface};
ghost use Rattle.daemon.specs.Acts.{ActsAs, BeginsActing};
ghost use Rattle.life_files.specs.Keeping.{AreKeptBut};
ghost use Rattle.daemon.specs.Lives.{IsBelowEnd, IsOrderly};
ghost use Rattle.life_asks.specs.Tables.{WasKnown};
ghost use Rattle.life_devices.specs.Waits.{KnowsChild, OnlyChild};

use crate::lives::Life;
use client_core::{Core, Outs, rows};
use hook_child::Supervisor;
use life_asks::{Pending, hook_turn, host_turn, offer_all};
use life_devices::Outside;
use life_files::{KeptFiles, Touched, keep_files};
use settings::Managed;
use std::alloc::Global;
use world::{HookJob, NoMemory};

/// What is known of the outside, and of the time, when the client makes a step.
#[derive(Drop)]
pub struct Outlook {
    /// What is still to be changed in the host's table, where that is known.
    pub pending: Pending,
    /// The files that the life keeps.
    pub files: KeptFiles,
    /// The jobs of hooks that wait, and the child that runs.
    pub hooks: Supervisor,
    /// The moment of the step, in milliseconds since 1970.
    pub moment: u64,
    /// The moment of the stop, once it came.
    pub stop: Option<u64>,
}

/// A step of the client: how it goes on, what it asks, and the jobs of hooks.
#[derive(Drop)]
pub struct Step {
    pub core: Core,
    pub outs: Outs,
    pub jobs: Vec<HookJob>,
}

/// Does what a step asks: the frames, the host calls, the jobs of hooks, then the files.
pub fn act<W: Outside>(
    alloc: Global,
    managed: &[Managed],
    outlook: Outlook,
    step: Step,
    touched: Touched<'_>,
    outside: &mut W,
    text: &mut Vec<u8>,
) -> Result<Life, NoMemory>
    requires moment { outlook.moment < 10 ^ 15 }
    requires stop { IsBelowEnd outlook.stop }
    requires child { KnowsChild outlook.hooks (W.seen outside.old) }
    requires sends { AllByRecursion IsOnInterface (sends_in step.outs) }
    requires kept { AreKeptBut touched step.core.ifaces outlook.files }
    requires known { (known : Option (List HostRow)) × WasKnown outlook.pending (rows_of step.core) known }
    ensures does { IfOk result
        (λ life. ActsAs managed.now outlook step life (W.seen outside.old)
        (W.seen outside.new) text.old.items text.new.items) }
    ensures begun { IfErr result
        (λ _. BeginsActing managed.now outlook step (W.seen outside.old) (W.seen outside.new)) }
    ensures child { IfOk result (λ life. KnowsChild life.hooks (W.seen outside.new)) }
    ensures moment { IfOk result (λ life. life.moment ≡ outlook.moment) }
    ensures stop { IfOk result (λ life. life.stop ≡ outlook.stop) }
    ensures orderly { IfOk result IsOrderly }
    ensures waiting { OnlyChild (W.seen outside.old).waiting (W.seen outside.new).waiting }
{
    let Outlook {
        pending,
        files,
        mut hooks,
        moment,
        stop,
    } = outlook;
    let Step { core, outs, jobs } = step;
    let unsent = offer_all(outside, &outs.sends, 0, text)?;
    let table = host_turn(alloc, outside, managed, pending, rows(&core), text)?;
    hook_turn(alloc, outside, &mut hooks, jobs, moment, text)?;
    let files = keep_files(alloc, &core, touched, files, outside, text)?;
    Ok(Life {
        core,
        table,
        files,
        hooks,
        moment,
        stop,
        unsent,
    })
}
