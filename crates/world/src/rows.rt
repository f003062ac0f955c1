//! The rows of the host's tables, which are its addresses and routes, and their total order.

ghost use Rattle.std.specs.Prelude.{◌≡◌};
ghost use Rattle.std.specs.Cmp.{partial_order_from_total, partial_equiv_from_equiv};
ghost use Rattle.std.specs.Cmp.Rules.{comparing};
ghost use Rattle.std.specs.Ordering.{as_partial_cmp, eq_by_cmp};
ghost use Rattle.std.proofs.Common.{rules};
ghost use Rattle.world.specs.RowOrder.{family, net_number, net_len, way_rank, way_gate, row_rank, row_iface, row_net, row_metric, row_gate, row_cmp, row_cmp_on_interface, row_cmp_total, row_eq_equivalence};

use net_types::{IfIndex, Ip4, Ip6, Net};
use std::cmp::Ordering;

/// Where a route leads.
#[derive(Clone, Copy, Debug, PartialEq, Eq)]
pub enum Via {
    /// The destination is on the link itself.
    OnLink,
    /// What is sent there is refused.
    Reject,
    /// By an IPv4 gateway.
    Gate4(Ip4),
    /// By an IPv6 gateway.
    Gate6(Ip6),
}

/// One row of the host's tables: an address that an interface has, or a route.
/// Rows are compared in row order: addresses first, then routes on the link, refused ones and those by a gateway.
#[derive(Clone, Copy, Debug)]
pub enum HostRow {
    Addr {
        iface: IfIndex,
        net: Net,
    },
    Route {
        iface: IfIndex,
        dest: Net,
        via: Via,
        metric: u32,
    },
}

fn family_of(net: Net) -> u8
    ensures { result ≡ family net }
{
    match net {
        Net::V4(_) => 0,
        Net::V6(_) => 1,
    }
}

fn number_of(net: Net) -> u128
    ensures { result ≡ net_number net }
{
    match net {
        Net::V4(net) => u128::from(net.ip.number),
        Net::V6(net) => net.ip.number,
    }
}

fn len_of(net: Net) -> u8
    ensures { result ≡ net_len net }
{
    match net {
        Net::V4(net) => net.len,
        Net::V6(net) => net.len,
    }
}

impl Via {
    fn rank(self) -> u8
        ensures { result ≡ way_rank self }
    {
        match self {
            Via::OnLink => 1,
            Via::Reject => 2,
            Via::Gate4(_) => 3,
            Via::Gate6(_) => 4,
        }
    }

    fn gate(self) -> u128
        ensures { result ≡ way_gate self }
    {
        match self {
            Via::OnLink => 0,
            Via::Reject => 0,
            Via::Gate4(gate) => u128::from(gate.number),
            Via::Gate6(gate) => gate.number,
        }
    }
}

impl HostRow {
    fn rank(self) -> u8
        ensures { result ≡ row_rank self }
    {
        match self {
            HostRow::Addr { .. } => 0,
            HostRow::Route { via, .. } => via.rank(),
        }
    }

    /// The interface that the row is on.
    pub fn iface(self) -> IfIndex
        ensures { result.number ≡ row_iface self }
    {
        match self {
            HostRow::Addr { iface, .. } => iface,
            HostRow::Route { iface, .. } => iface,
        }
    }

    fn net(self) -> Net
        ensures { result ≡ row_net self }
    {
        match self {
            HostRow::Addr { net, .. } => net,
            HostRow::Route { dest, .. } => dest,
        }
    }

    fn metric(self) -> u32
        ensures { result ≡ row_metric self }
    {
        match self {
            HostRow::Addr { .. } => 0,
            HostRow::Route { metric, .. } => metric,
        }
    }

    fn gate(self) -> u128
        ensures { result ≡ row_gate self }
    {
        match self {
            HostRow::Addr { .. } => 0,
            HostRow::Route { via, .. } => via.gate(),
        }
    }

    /// The order of rows of one kind that are on one interface.
    fn cmp_on_interface(&self, other: &HostRow) -> Ordering
        ensures { result ≡ row_cmp_on_interface self.now other.now }
    {
        let (a, b) = (self.net(), other.net());
        number_of(a)
            .cmp(&number_of(b))
            .then(len_of(a).cmp(&len_of(b)))
            .then(self.metric().cmp(&other.metric()))
            .then(self.gate().cmp(&other.gate()))
    }
}

impl Ord for HostRow {
    ghost cmp = { row_cmp };

    ghost total = { row_cmp_total };

    ghost matches_partial_cmp = { Prim.search (comparing, rules) };

    ghost matches_eq = { Prim.search (comparing, rules) };

    fn cmp(&self, other: &HostRow) -> Ordering {
        let (a, b) = (self.net(), other.net());
        let by_kind = self
            .rank()
            .cmp(&other.rank())
            .then(family_of(a).cmp(&family_of(b)))
            .then(self.iface().number.cmp(&other.iface().number));
        match by_kind {
            Ordering::Equal => self.cmp_on_interface(other),
            unlike => unlike,
        }
    }
}

impl PartialOrd for HostRow {
    ghost partial_cmp = { as_partial_cmp row_cmp };

    ghost laws = { partial_order_from_total row_cmp_total };

    fn partial_cmp(&self, other: &HostRow) -> Option<Ordering> {
        Some(self.cmp(other))
    }
}

impl Eq for HostRow {
    ghost laws = { row_eq_equivalence };
}

impl PartialEq for HostRow {
    ghost eq = { eq_by_cmp row_cmp };

    ghost laws = { partial_equiv_from_equiv row_eq_equivalence };

    fn eq(&self, other: &HostRow) -> bool {
        self.cmp(other).is_eq()
    }
}
