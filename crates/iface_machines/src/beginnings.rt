//! What is given for an interface at the start of a life: its settings, the host's DHCP unique identifier, and the
//! leases that were kept.

use lease_text::Lease4;
use lease6_text::Lease6;
use settings::Managed;
use v6_options::Duid;

/// An interface as a life begins.
#[derive(Drop)]
pub struct Beginning {
    pub managed: Managed,
    /// The DUID of the host, by which servers of DHCPv6 tell it.
    pub duid: Duid,
    /// The DHCPv4 lease that was kept for the interface, held or not.
    pub kept4: Option<Lease4>,
    /// The DHCPv6 lease that was kept for the interface, held or not.
    pub kept6: Option<Lease6>,
}
