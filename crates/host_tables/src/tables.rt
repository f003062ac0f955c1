//! The addresses and routes that each place brings, as an interface is one, and what a host is to hold of them all,
//! kept up to date as one place after another changes.

ghost use Rattle.std.specs.Prelude.{◌≡◌, ◌<◌, ◌≤◌, ◌+◌, ℕ, [], ◌∷◌, ◌++◌, length, slice_index_or, slice_set, OnOk, OnErr, IfOk};
ghost use Rattle.std.specs.List.{AllByRecursion};
ghost use Rattle.world.specs.Rows.{IsRow};
ghost use Rattle.host_model.specs.HostTable.{InRowOrder};
ghost use Rattle.host_model.specs.Precedence.{wanted_of};
ghost use Rattle.host_tables.specs.Costs.{HaveDigits, most_steps, rows_exchanged};
ghost use Rattle.host_tables.specs.Unions.{Differ};

use crate::host_rows::HostRows;
use crate::union::{Diff, Union};
use counted_search::{Ledger, Plain, Steps};
use net_types::NoMemory;
use std::alloc::Global;
use std::marker::Model;
use world::HostRow;

/// The rows that each place brings, as an interface is one, and what a host is to hold of them.
#[derive(Drop)]
pub struct Tables {
    alloc: Global,
    places: Vec<HostRows>,
    union: Union,
}

impl Model for Tables {
    ghost use Rattle.std.specs.Prelude.{List};
    ghost use Rattle.world.specs.declared.rows.HostRow.{HostRow};
    ghost use Rattle.host_tables.specs.Unions.{Unites, AllFit};

    ghost Value = { List (List HostRow) };

    ghost view = { λ all. all.places.items };

    ghost invariant = { λ all. Unites all.places.items all.union × AllFit all.places.items };
}

impl Tables {
    /// Tables without a place.
    pub fn new(alloc: Global) -> Tables
        ensures { result ≡ [] }
    {
        Tables {
            alloc,
            places: Vec::new(alloc),
            union: Union::new(alloc),
        }
    }

    /// Adds a place, after all others, that brings these rows. Where memory runs out all is as it was.
    pub fn push(&mut self, rows: HostRows) -> Result<(), NoMemory>
        ensures grown { OnOk result (self.new ≡ self.old ++ rows ∷ []) }
        ensures kept { OnErr result (self.new ≡ self.old) }
    {
        self.places.reserve(1)?;
        let place = self.places.len();
        let _diff = self.union.exchange(
            self.alloc,
            place,
            &[],
            rows.as_slice(),
            &mut Steps::new(Plain),
        )?;
        // There is room, so this can't fail.
        let _ = self.places.push(rows);
        Ok(())
    }

    /// Puts these rows in the place of those that this place brings, and answers what that makes of the wanted rows.
    /// The steps that it takes, of which each is the comparison of two rows, grow with the number of these rows and of
    /// those before, and not with all. Where memory runs out all is as it was.
    pub fn change<L: Ledger>(
        &mut self,
        place: usize,
        rows: HostRows,
        steps: &mut Steps<L>,
    ) -> Result<Diff, NoMemory>
        requires { place < length self.old }
        ensures changed { OnOk result (self.new ≡ slice_set self.old place rows) }
        ensures differ { IfOk result (λ diff. Differ self.old (slice_set self.old place rows) diff) }
        ensures kept { OnErr result (self.new ≡ self.old) }
        ensures grows { steps.old ≤ steps.new }
        ensures steps { (d : ℕ) → HaveDigits d self.old place rows
            → steps.new ≤ steps.old + most_steps (rows_exchanged self.old place rows) d }
    {
        let before = self.places[place].as_slice();
        let diff = self
            .union
            .exchange(self.alloc, place, before, rows.as_slice(), steps)?;
        self.places[place] = rows;
        Ok(diff)
    }

    /// The rows that this place brings.
    pub fn brought(&self, place: usize) -> &HostRows
        requires { place < length self.now }
        ensures { result.now ≡ slice_index_or self.now place [] }
    {
        &self.places[place]
    }

    /// The rows that a host is to hold: those that the places bring, each once. Where routes agree in destination,
    /// length and metric, the interface with the lowest number has its way, and on it the route that row order puts
    /// first.
    pub fn wanted(&self) -> &[HostRow]
        ensures rows { result.now ≡ wanted_of self.now }
        ensures fit { AllByRecursion IsRow result.now }
        ensures in_order { InRowOrder result.now }
    {
        &self.union.wanted
    }
}
