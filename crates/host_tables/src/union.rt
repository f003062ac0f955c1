//! The rows of all places in order: a change costs searches for its own rows, however many there are.

ghost use Rattle.std.specs.Prelude.{◌≡◌, ◌+◌, ◌*◌, ◌^◌, ◌<◌, ◌≤◌, ℕ, [], length, vec_len, IfOk, OnErr};
ghost use Rattle.std.specs.Vec.{vec_capacity};
ghost use Rattle.host_model.specs.HostTable.{InRowOrder};
ghost use Rattle.host_tables.specs.Bringings.{InBringingOrder};
ghost use Rattle.host_tables.specs.Costs.{AreFew, HasRoom, IsEmpty, RoomFor, most_steps};
ghost use Rattle.host_tables.specs.Unions.{AddsRows, Brings, Exchanges, KeepsRows, RemovesRows, TakesOut, Unites};

use crate::bringing::Bringing;
use crate::standing::heads_into;
use counted_search::{Ledger, Steps, beyond_into, put_in};
use std::alloc::{AllocError, Global};
use world::HostRow;

/// The rows of all places, in order: each place with each of its rows, and the rows that are wanted.
#[derive(Drop)]
pub struct Union {
    pub brought: Vec<Bringing>,
    pub wanted: Vec<HostRow>,
}

/// What a change makes of the wanted rows.
#[derive(Drop)]
pub struct Diff {
    /// The rows that are no longer wanted, in row order.
    pub gone: Vec<HostRow>,
    /// The rows that are wanted since, in row order.
    pub come: Vec<HostRow>,
}

/// Room for what a change finds, taken before anything changes.
#[derive(Drop)]
struct Room {
    stood: Vec<HostRow>,
    stand: Vec<HostRow>,
    gone: Vec<HostRow>,
    come: Vec<HostRow>,
}

/// Takes these rows out.
fn remove_all<L: Ledger>(all: &mut Vec<HostRow>, rows: &[HostRow], steps: &mut Steps<L>)
    requires { InRowOrder all.old.items }
    ensures removes { RemovesRows rows.now all.old.items all.new.items }
    ensures len { vec_len all.new ≤ vec_len all.old }
    ensures capacity { vec_capacity all.old ≤ vec_capacity all.new }
    ensures grows { steps.old ≤ steps.new }
    ensures steps { (n : ℕ) → vec_len all.old < 2 ^ n → steps.new ≤ steps.old + length rows.now * n }
{
    for row in rows {
        counted_search::take_out(all, row, steps);
    }
}

/// Puts these rows in.
fn add_all<L: Ledger>(all: &mut Vec<HostRow>, rows: &[HostRow], steps: &mut Steps<L>)
    requires in_order { InRowOrder all.old.items }
    requires room { HasRoom (length rows.now) all.old }
    ensures adds { AddsRows rows.now all.old.items all.new.items }
    ensures grows { steps.old ≤ steps.new }
    ensures steps { (n : ℕ) → vec_len all.new < 2 ^ n → steps.new ≤ steps.old + length rows.now * n }
{
    for row in rows {
        put_in(all, 0, *row, steps);
    }
}

impl Room {
    /// Room for so many rows.
    fn new(alloc: Global, count: usize) -> Result<Room, AllocError>
        ensures stood { IfOk result (λ room. IsEmpty room.stood × HasRoom count room.stood) }
        ensures stand { IfOk result (λ room. IsEmpty room.stand × HasRoom count room.stand) }
        ensures gone { IfOk result (λ room. HasRoom count room.gone) }
        ensures come { IfOk result (λ room. HasRoom count room.come) }
    {
        Ok(Room {
            stood: Vec::with_capacity(alloc, count)?,
            stand: Vec::with_capacity(alloc, count)?,
            gone: Vec::with_capacity(alloc, count)?,
            come: Vec::with_capacity(alloc, count)?,
        })
    }
}

impl Union {
    /// The union of nothing.
    #[tactic(auto, using(counted_search::proofs::Edits::sorted_none))]
    pub fn new(alloc: Global) -> Union
        ensures { Unites [] result }
    {
        Union {
            brought: Vec::new(alloc),
            wanted: Vec::new(alloc),
        }
    }

    /// The place no longer brings these rows.
    fn take_out<L: Ledger>(&mut self, place: usize, rows: &[HostRow], steps: &mut Steps<L>)
        requires { InBringingOrder self.old.brought.items }
        ensures takes_out { TakesOut place rows.now self.old self.new }
        ensures len { vec_len self.new.brought ≤ vec_len self.old.brought }
        ensures capacity { vec_capacity self.old.brought ≤ vec_capacity self.new.brought }
        ensures grows { steps.old ≤ steps.new }
        ensures steps { (n : ℕ) → vec_len self.old.brought < 2 ^ n → steps.new ≤ steps.old + length rows.now * n }
    {
        for row in rows {
            counted_search::take_out(&mut self.brought, &Bringing { row: *row, place }, steps);
        }
    }

    /// The place brings these rows.
    fn bring<L: Ledger>(&mut self, place: usize, rows: &[HostRow], steps: &mut Steps<L>)
        requires in_order { InBringingOrder self.old.brought.items }
        requires room { vec_len self.old.brought + length rows.now ≤ vec_capacity self.old.brought }
        ensures brings { Brings place rows.now self.old self.new }
        ensures len { vec_len self.new.brought ≤ vec_len self.old.brought + length rows.now }
        ensures grows { steps.old ≤ steps.new }
        ensures steps { (n : ℕ) → vec_len self.new.brought < 2 ^ n → steps.new ≤ steps.old + length rows.now * n }
    {
        for row in rows {
            put_in(&mut self.brought, 0, Bringing { row: *row, place }, steps);
        }
    }

    /// The place brings other rows than before, with all memory at hand.
    fn exchange_in<L: Ledger>(
        &mut self,
        room: Room,
        place: usize,
        before: &[HostRow],
        after: &[HostRow],
        steps: &mut Steps<L>,
    ) -> Diff
        requires brought { InBringingOrder self.old.brought.items }
        requires wanted { InRowOrder self.old.wanted.items }
        requires room { RoomFor before.now after.now room self.old }
        ensures exchanges { Exchanges place before.now after.now self.old self.new result }
        ensures grows { steps.old ≤ steps.new }
        ensures steps { (d : ℕ) → AreFew d before.now after.now self.old self.new
            → steps.new ≤ steps.old + most_steps (length before.now + length after.now) d }
    {
        let Room {
            mut stood,
            mut stand,
            mut gone,
            mut come,
        } = room;
        heads_into(&self.brought, before, after, &mut stood, steps);
        self.take_out(place, before, steps);
        self.bring(place, after, steps);
        heads_into(&self.brought, before, after, &mut stand, steps);
        beyond_into(&stood, &stand, &mut gone, steps);
        beyond_into(&stand, &stood, &mut come, steps);
        remove_all(&mut self.wanted, &gone, steps);
        add_all(&mut self.wanted, &come, steps);
        Diff { gone, come }
    }

    /// The place brings other rows than before. All memory is taken first: where there is none, all is as it was.
    pub fn exchange<L: Ledger>(
        &mut self,
        alloc: Global,
        place: usize,
        before: &[HostRow],
        after: &[HostRow],
        steps: &mut Steps<L>,
    ) -> Result<Diff, AllocError>
        requires brought { InBringingOrder self.old.brought.items }
        requires wanted { InRowOrder self.old.wanted.items }
        ensures exchanges { IfOk result (λ diff. Exchanges place before.now after.now self.old self.new diff) }
        ensures kept { OnErr result (KeepsRows self.old self.new) }
        ensures unspent { OnErr result (steps.new ≡ steps.old) }
        ensures grows { steps.old ≤ steps.new }
        ensures steps { (d : ℕ) → AreFew d before.now after.now self.old self.new
            → steps.new ≤ steps.old + most_steps (length before.now + length after.now) d }
    {
        let count = before.len() + after.len();
        let room = Room::new(alloc, count)?;
        self.brought.reserve(after.len())?;
        self.wanted.reserve(count)?;
        Ok(self.exchange_in(room, place, before, after, steps))
    }
}
