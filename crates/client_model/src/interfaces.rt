//! The state of one managed interface: its settings, its carrier, its DHCPv4 and DHCPv6 clients, and its link-local
//! address.

use ipv4ll::LinkLocal;
use settings::Managed;
use v4_client::Client4;
use v6_client::Client6;

/// A managed interface in a life.
#[derive(Drop)]
pub struct Iface {
    pub managed: Managed,
    /// Whether it has carrier.
    pub up: bool,
    /// Whether the daemon was told to stop.
    pub stopped: bool,
    /// Its DHCPv4 client.
    pub dhcp4: Client4,
    /// Its link-local address.
    pub local: LinkLocal,
    /// Its DHCPv6 client.
    pub dhcp6: Client6,
}
