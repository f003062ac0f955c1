//! When interfaces are due: the place of an interface is its place among all of them.

ghost use Rattle.std.specs.Prelude.{◌≡◌, map, IfOk};
ghost use Rattle.client_model.specs.Clients.{client_due};
ghost use Rattle.client_core.specs.Due.{AreMoments, dues_of};

use crate::due_queue::Dues;
use crate::places::PLACES;
use client_model::Iface;
use iface_core::{earlier_of, iface_due};
use net_types::NoMemory;
use std::alloc::Global;

/// The queue of the moments of these interfaces.
pub fn queue_of(alloc: Global, ifaces: &[Iface]) -> Result<Dues, NoMemory>
    ensures { IfOk result (λ dues. AreMoments (map dues_of ifaces.now) dues) }
{
    let mut dues = Dues::new(alloc)?;
    // an opening isn't a step, of which this is counted
    let mut looks = 0;
    'places: for place in 0..ifaces.len() {
        dues.put(place, &ifaces[place], &mut looks);
    }
    Ok(dues)
}

/// The earliest moment at which one of these interfaces is due.
fn earliest_of(ifaces: &[Iface]) -> Option<u64>
    ensures { result ≡ client_due ifaces.now }
{
    let mut first = None;
    for iface in ifaces {
        first = earlier_of(first, iface_due(iface));
    }
    first
}

/// The earliest moment at which one of all interfaces is due. The queue has no moments of those from place 64 on.
pub fn first_due(dues: &Dues, ifaces: &[Iface]) -> Option<u64>
    requires { AreMoments (map dues_of ifaces.now) dues.now }
    ensures { result ≡ client_due ifaces.now }
{
    let others = &ifaces[PLACES.min(ifaces.len())..];
    earlier_of(dues.first(), earliest_of(others))
}
