//! The news that a step may bring of an interface: its opening and its end, its carrier, its leases, and its
//! link-local address.

use net_types::Ip4;
use v4_client::News4;
use v6_client::News6;

/// What is new on an interface.
#[derive(Clone, Copy, Debug, PartialEq, Eq)]
pub enum News {
    /// The interface was opened.
    Opened,
    /// The carrier came, or was there at the opening.
    CarrierCame,
    CarrierWent,
    /// Its leases were to be given back.
    Released,
    /// The daemon is to end.
    Stopped,
    /// What has become of its DHCPv4 lease.
    Lease4(News4),
    /// What has become of its DHCPv6 lease.
    Lease6(News6),
    /// The time for a lease is over.
    Timeout,
    /// A link-local address passed its probes and is held.
    LocalGained,
    /// The link-local address that was held is lost to another host.
    LocalLost(Ip4),
}
