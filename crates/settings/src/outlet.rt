//! The interface that addresses and routes are given to, and the metric of those routes.

use net_types::IfIndex;

/// By where the rows of an interface lead: the interface, and the metric of its routes.
#[derive(Clone, Copy)]
pub struct Outlet {
    pub iface: IfIndex,
    pub metric: u32,
}
