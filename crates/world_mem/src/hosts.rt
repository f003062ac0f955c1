//! A stand-in for the host's tables: rows held in memory, failures told beforehand, and a record of the calls.

ghost use Rattle.std.specs.Prelude.{◌≡◌, [], ◌++◌, All, IfOk, OnOk, OnErr};
ghost use Rattle.std.specs.BTreeSet.{IsOrdered};
ghost use Rattle.world.specs.Rows.{IsRow};
ghost use Rattle.world.specs.RowOrder.{in_row_order, row_cmp};

use crate::small_rows::SmallRow;
use call_record::{Numbers, accept, enter, next_fails, refuse};
use std::alloc::Global;
use std::collections::BTreeSet;
use std::marker::Model;
use std::mem::size_of;
use world::{DeviceAnswer, Host, HostRow, NoMemory};

/// A call that a host answered. What a listing gave follows from the rows at the start and the calls before it.
#[derive(Drop)]
pub(crate) enum HostEntry {
    List { done: bool },
    Add { done: bool, row: SmallRow },
    Remove { done: bool, row: SmallRow },
}

/// A turn may make several entries, and all are kept.
const _: () = prove!(size_of::<HostEntry>() <= 32);

/// The host's tables in memory.
#[derive(Drop)]
pub struct MemHost {
    alloc: Global,
    first: Vec<HostRow>,
    rows: BTreeSet<HostRow>,
    calls: Vec<HostEntry>,
    fails: Numbers,
}

impl Model for MemHost {
    ghost use Rattle.world_mem.specs.HostRecord.{HostState, HoldsRows, told_from};

    ghost Value = { HostState };

    ghost view = { λ host. record { told = told_from host.first.items host.calls.items; failing = host.fails } };

    ghost invariant = { λ h. HoldsRows (told_from h.first.items h.calls.items) h.rows.keys h.calls.items };
}

impl MemHost {
    /// A host that holds the rows at first, and fails at the calls with these numbers, from 1.
    pub fn new(alloc: Global, rows: Vec<HostRow>, fails: Vec<u64>) -> Result<MemHost, NoMemory>
        requires { All IsRow rows.items }
        ensures { IfOk result
            (λ host. host
            ≡ record { told = record { rows = in_row_order rows.items; calls = [] }; failing = fails.items }) }
    {
        let mut held = BTreeSet::new(alloc);
        for row in &rows {
            let Ok(_) = held.insert(*row) else {
                return Err(NoMemory);
            };
        }
        Ok(MemHost {
            alloc,
            first: rows,
            rows: held,
            calls: Vec::new(alloc),
            fails: Numbers::new(fails),
        })
    }
}

/// Appends the rows of a set, or nothing where memory runs out.
fn append_rows(held: &BTreeSet<HostRow>, rows: &mut Vec<HostRow>) -> Result<(), NoMemory>
    ensures ok { OnOk result (rows.new.items ≡ rows.old.items ++ held.now.keys) }
    ensures err { OnErr result (rows.new.items ≡ rows.old.items) }
    ensures ordered { IsOrdered row_cmp held.now }
{
    let before = rows.len();
    for row in held {
        let Ok(()) = rows.push(*row) else {
            rows.truncate(before);
            return Err(NoMemory);
        };
    }
    Ok(())
}

impl Host for MemHost {
    ghost use Rattle.std.specs.Prelude.{Some};
    ghost use Rattle.world_mem.specs.HostRecord.{host_faults};

    ghost faults = { λ host. host_faults host.told.calls };

    ghost told = { λ host. Some host.told };

    ghost failing = { λ host. Some host.failing };

    fn list(&mut self, rows: &mut Vec<HostRow>) -> Result<(), DeviceAnswer> {
        if next_fails(&mut self.calls, &self.fails)? {
            return refuse(&mut self.calls, HostEntry::List { done: false });
        }
        let Ok(()) = append_rows(&self.rows, rows) else {
            return Err(DeviceAnswer::NoMemory);
        };
        enter(&mut self.calls, HostEntry::List { done: true });
        Ok(())
    }

    fn add(&mut self, row: &HostRow) -> Result<(), DeviceAnswer> {
        let fails = next_fails(&mut self.calls, &self.fails)?;
        let small = SmallRow::new(self.alloc, *row)?;
        if fails {
            return refuse(
                &mut self.calls,
                HostEntry::Add {
                    done: false,
                    row: small,
                },
            );
        }
        let Ok(_) = self.rows.insert(*row) else {
            return Err(DeviceAnswer::NoMemory);
        };
        accept(
            &mut self.calls,
            HostEntry::Add {
                done: true,
                row: small,
            },
        )
    }

    fn remove(&mut self, row: &HostRow) -> Result<(), DeviceAnswer> {
        let fails = next_fails(&mut self.calls, &self.fails)?;
        let small = SmallRow::new(self.alloc, *row)?;
        if fails {
            return refuse(
                &mut self.calls,
                HostEntry::Remove {
                    done: false,
                    row: small,
                },
            );
        }
        self.rows.remove(row);
        accept(
            &mut self.calls,
            HostEntry::Remove {
                done: true,
                row: small,
            },
        )
    }
}
