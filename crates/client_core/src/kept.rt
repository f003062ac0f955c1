//! What is kept of the interfaces beside them: the place of an interface is its place among all of them.

ghost use Rattle.std.specs.Prelude.{◌≡◌, false, map, IfOk};
ghost use Rattle.settings.specs.Fitting.{FitsManaged};
ghost use Rattle.client_model.specs.Fitting.{AreIfaces};
ghost use Rattle.client_model.specs.IfaceSteps.{index_of};
ghost use Rattle.iface_core.specs.Inputs.{turn_of};
ghost use Rattle.client_core.specs.Due.{looks_after};
ghost use Rattle.client_core.specs.Renewing.{HasPlace, IsAt, Renews, Takes};
ghost use Rattle.client_core.specs.Running.{IsRunning};
ghost use Rattle.client_core.specs.Touched.{may_show};
ghost use Rattle.client_core.specs.Names.{AreNamed};

use crate::due_queue::Dues;
use crate::dues::queue_of;
use crate::effects::{Changes, Resolver};
use crate::iface_tables::{renew_rows, tables_of};
use crate::named::Named;
use crate::places::Places;
use crate::resting::called_places;
use crate::told_parts::{renew_parts, told_of};
use client_model::Iface;
use host_tables::{Diff, Tables};
use iface_core::Turn;
use net_types::NoMemory;
use resolver_text::Part;
use std::alloc::Global;

/// What is kept of the interfaces, so that only what changes is made anew.
#[derive(Drop)]
pub struct Kept {
    /// The rows that each brings.
    pub tables: Tables,
    /// What they tell the resolver: of each a part of IPv4, and then one of IPv6.
    pub parts: Vec<Part>,
    /// When the machines of those with a place below 64 are due.
    pub dues: Dues,
    /// Which places those of each index have.
    pub named: Named,
}

/// What is new where the interface at a place was brought up to date.
#[derive(Drop)]
pub struct Renewed {
    pub resolver: Resolver,
    /// How the wanted rows changed, where the interface brings other rows than before.
    pub rows: Option<Diff>,
}

/// Which places these interfaces have.
fn names_of(ifaces: &[Iface]) -> Named
    requires { AreIfaces ifaces.now }
    ensures { AreNamed (map index_of ifaces.now) result }
{
    let mut named = Named::none();
    'places: for place in 0..ifaces.len() {
        named.name(place, ifaces[place].managed.spec.index.number);
    }
    named
}

impl Kept {
    /// What is to be kept of these interfaces.
    pub fn of(alloc: Global, ifaces: &[Iface]) -> Result<Kept, NoMemory>
        requires { AreIfaces ifaces.now }
        ensures { IfOk result (λ kept. IsRunning ifaces.now kept) }
    {
        let tables = tables_of(alloc, ifaces)?;
        let parts = told_of(alloc, ifaces)?;
        let dues = queue_of(alloc, ifaces)?;
        let named = names_of(ifaces);
        Ok(Kept {
            tables,
            parts,
            dues,
            named,
        })
    }

    /// The places of the interfaces that have something to do in a turn. What is due of them isn't in the queue any
    /// more.
    pub fn take(&mut self, turn: &Turn<'_>) -> Places
        ensures { Takes (turn_of turn.now) result self.old self.new }
    {
        let due = self.dues.take(turn.at);
        due.or(called_places(&self.named, turn))
    }

    /// Brings what is kept of the interface at a place up to date. How often its machines are asked when they are due
    /// is counted.
    pub fn renew(
        &mut self,
        alloc: Global,
        place: usize,
        iface: &Iface,
        changes: Changes,
        looks: &mut u64,
    ) -> Result<Renewed, NoMemory>
        requires fit { FitsManaged iface.now.managed }
        requires place { HasPlace place self.old }
        requires same { may_show changes ≡ false → IsAt place iface.now self.old }
        ensures renews { IfOk result (λ renewed. Renews place iface.now renewed self.old self.new) }
        ensures counted { looks.new ≡ looks_after place looks.old }
    {
        self.dues.put(place, iface, looks);
        let may_differ = changes.may_show();
        let rows = renew_rows(alloc, &mut self.tables, place, iface, may_differ)?;
        let resolver = renew_parts(alloc, &mut self.parts, place, iface, may_differ)?;
        Ok(Renewed { resolver, rows })
    }
}
