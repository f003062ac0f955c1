//! An address or route together with the place that brings it, in an order in which rivals for one target stand side
//! by side, the one that is kept first.

ghost use Rattle.std.specs.Prelude.{◌≡◌};
ghost use Rattle.std.specs.Cmp.{partial_order_from_total, partial_equiv_from_equiv};
ghost use Rattle.std.specs.Cmp.Rules.{comparing};
ghost use Rattle.std.specs.Ordering.{as_partial_cmp, eq_by_cmp};
ghost use Rattle.std.proofs.Common.{rules};
ghost use Rattle.world.specs.RowOrder.{row_cmp};
ghost use Rattle.host_tables.specs.Bringings.{net_cmp, target_of, bringing_cmp, bringing_cmp_for_target, bringing_cmp_total, bringing_eq_equivalence};

use net_types::{IfIndex, Net};
use std::cmp::Ordering;
use world::{HostRow, Via};

/// A row that a place brings. Rows with one target stand together, the one that is kept first.
#[derive(Clone, Copy)]
pub struct Bringing {
    pub row: HostRow,
    pub place: usize,
}

/// The target of a row: an address itself, and for a route what stands for all with its destination, length and metric.
pub fn target(row: HostRow) -> HostRow
    ensures { result ≡ target_of row }
{
    match row {
        HostRow::Addr { iface, net } => HostRow::Addr { iface, net },
        HostRow::Route { dest, metric, .. } => HostRow::Route {
            iface: IfIndex { number: 0 },
            dest,
            via: Via::OnLink,
            metric,
        },
    }
}

/// The order of networks: by family, address and length.
fn cmp_nets(one: Net, other: Net) -> Ordering
    ensures { result ≡ net_cmp one other }
{
    match (one, other) {
        (Net::V4(a), Net::V4(b)) => a.ip.number.cmp(&b.ip.number).then(a.len.cmp(&b.len)),
        (Net::V4(_), Net::V6(_)) => Ordering::Less,
        (Net::V6(_), Net::V4(_)) => Ordering::Greater,
        (Net::V6(a), Net::V6(b)) => a.ip.number.cmp(&b.ip.number).then(a.len.cmp(&b.len)),
    }
}

/// The order of the targets of two rows, which aren't made for it.
fn cmp_targets(one: &HostRow, other: &HostRow) -> Ordering
    ensures { result ≡ row_cmp (target_of one.now) (target_of other.now) }
{
    match (one, other) {
        (HostRow::Addr { .. }, HostRow::Addr { .. }) => one.cmp(other),
        (HostRow::Addr { .. }, HostRow::Route { .. }) => Ordering::Less,
        (HostRow::Route { .. }, HostRow::Addr { .. }) => Ordering::Greater,
        (
            HostRow::Route { dest, metric, .. },
            HostRow::Route {
                dest: other_dest,
                metric: other_metric,
                ..
            },
        ) => cmp_nets(*dest, *other_dest).then(metric.cmp(other_metric)),
    }
}

impl Bringing {
    /// The order of rows with one target.
    fn cmp_for_target(&self, other: &Bringing) -> Ordering
        ensures { result ≡ bringing_cmp_for_target self.now other.now }
    {
        let (a, b) = (self.row, other.row);
        a.iface()
            .number
            .cmp(&b.iface().number)
            .then(a.cmp(&b))
            .then(self.place.cmp(&other.place))
    }
}

impl Ord for Bringing {
    ghost cmp = { bringing_cmp };

    ghost total = { bringing_cmp_total };

    ghost matches_partial_cmp = { Prim.search (comparing, rules) };

    ghost matches_eq = { Prim.search (comparing, rules) };

    fn cmp(&self, other: &Bringing) -> Ordering {
        match cmp_targets(&self.row, &other.row) {
            Ordering::Equal => self.cmp_for_target(other),
            unlike => unlike,
        }
    }
}

impl PartialOrd for Bringing {
    ghost partial_cmp = { as_partial_cmp bringing_cmp };

    ghost laws = { partial_order_from_total bringing_cmp_total };

    fn partial_cmp(&self, other: &Bringing) -> Option<Ordering> {
        Some(self.cmp(other))
    }
}

impl Eq for Bringing {
    ghost laws = { bringing_eq_equivalence };
}

impl PartialEq for Bringing {
    ghost eq = { eq_by_cmp bringing_cmp };

    ghost laws = { partial_equiv_from_equiv bringing_eq_equivalence };

    fn eq(&self, other: &Bringing) -> bool {
        self.cmp(other).is_eq()
    }
}
