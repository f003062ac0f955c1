//! UDP datagrams in the body of an Ethernet frame: heard through borrowed views, and spelled as sent
//! (RFC 768, RFC 791, RFC 8200).
#![tactic(auto)]

mod constants;
mod datagram;
pub mod dhcp6;
mod framing;
mod heard;
mod ipv4;
mod ipv6;
mod udp4;
mod udp6;

pub use constants::numbers_are_those_assigned;
pub use heard::{udp4_is_heard, udp6_is_heard};
pub use ipv6::link_local_of;
pub use udp4::{Ends4, KIND_IPV4, Udp4View, build_udp4, udp4_of};
pub use udp6::{Ends6, KIND_IPV6, Udp6View, build_udp6, udp6_of};
