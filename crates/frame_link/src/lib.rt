//! Ethernet frames and the ARP packets in them: heard through borrowed views, and spelled as sent
//! (RFC 894, RFC 826).
#![tactic(auto)]

mod arp;
mod ethernet;
mod fields;
mod heard;

pub use arp::{ArpView, arp_frame, arp_of};
pub use ethernet::{EthView, eth_of};
pub use fields::{ip4_at, mac_at, word_at};
pub use heard::{
    arp_is_heard, frame_is_heard, frame_is_spelled, packet_is_heard, packet_is_spelled,
};
