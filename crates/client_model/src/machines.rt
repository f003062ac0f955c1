//! Which parts of an interface act at moments of their own: its DHCPv4 client, its link-local address, its DHCPv6
//! client.

/// The timed machines of an interface, in the order in which they tick.
#[derive(Clone, Copy)]
pub enum TimedMachine {
    Dhcp4,
    LinkLocal,
    Dhcp6,
}
