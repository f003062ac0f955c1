//! Reads one UDP frame a million times, for the figure in bench/README.md.
#![tactic(auto)]

use frame_link::eth_of;
use net_types::{Ip4, Mac, NoMemory};
use std::alloc::Global;
use std::io;
use udp_frame::{Ends4, build_udp4, udp4_of};

const READINGS: u32 = 1_000_000;

/// A frame of 342 bytes, as a client's first message has.
fn first_message(alloc: Global) -> Result<Vec<u8>, NoMemory> {
    let ends = Ends4 {
        from_mac: Mac {
            bytes: [2, 0, 0, 0, 0, 1],
        },
        to_mac: Mac { bytes: [255; 6] },
        from: Ip4 { number: 0 },
        to: Ip4 {
            number: 0xffff_ffff,
        },
    };
    build_udp4(alloc, &ends, 68, 67, &[1; 300])
}

/// How many of so many readings of a frame hear a datagram.
fn heard(frame: &[u8], readings: u32) -> usize {
    (0..readings)
        .filter(|_| eth_of(frame).is_some_and(|eth| udp4_of(eth.body).is_some()))
        .count()
}

fn main(rt: HostRuntime) -> io::Result<()> {
    let Ok(frame) = first_message(rt.alloc()) else {
        return println!(rt; "no memory");
    };
    println!(rt;
        "{} of {READINGS} readings heard it",
        heard(&frame, READINGS)
    )
}
