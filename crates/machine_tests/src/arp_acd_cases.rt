//! Test cases of IPv4 address conflict detection: probing, announcing, and what follows a conflict (RFC 5227).

use arp_acd::{Acd, AcdSays, acd_addr, acd_begin, acd_heard, acd_held, acd_unsent};
use frame_link::ArpView;
use machine::{Machine, early_ticks_rest};
use net_types::{IfIndex, Ip4, Mac};
use std::process::Abort;
use std::rt::HostRuntime;

const FIRST: IfIndex = IfIndex { number: 1 };
/// 10.0.0.50
const ADDR: Ip4 = Ip4 {
    number: 0x0a00_0032,
};

const OWN: [Mac; 1] = [Mac {
    bytes: [2, 0, 0, 0, 0, 1],
}];

/// A reply that says who has the address.
fn reply_from(last: u8) -> ArpView {
    ArpView {
        op: 2,
        sender_mac: Mac {
            bytes: [2, 0, 0, 0, 0, last],
        },
        sender: ADDR,
        target: Ip4 { number: 0 },
    }
}

/// Three probes of a detection that began at 200, with salts of 0.
fn probed() -> Acd {
    let mut acd = acd_begin(FIRST, ADDR, 200, 0);
    let _ = acd.tick(201, 0);
    let _ = acd.tick(1202, 0);
    let _ = acd.tick(2203, 0);
    acd
}

/// The address has passed at 4203 and was announced again at 6203.
fn held() -> Acd {
    let mut acd = probed();
    let _ = acd.tick(4203, 0);
    let _ = acd.tick(6203, 0);
    acd
}

/// At a moment the detection says this, is due then, and holds this address.
type Row = (u64, AcdSays, Option<u64>, Option<Ip4>);

/// The detection does what the rows say, one after another.
fn follows(rt: &impl Abort, acd: &mut Acd, rows: &[Row]) {
    for (at, says, due, held) in rows {
        let said = acd.tick(*at, 0);
        assert_eq!(rt;
            (said, acd.due(), acd_held(acd)),
            (*says, *due, *held),
            "at {at}"
        );
    }
}

#[test]
fn an_address_passes_after_three_probes(rt: HostRuntime) {
    early_ticks_rest::<Acd>();
    let mut acd = acd_begin(FIRST, ADDR, 200, 0);
    assert_eq!(rt; (acd_addr(&acd), acd.due()), (ADDR, Some(201)));
    let rows = [
        // not due yet
        (200, AcdSays::Quiet, Some(201), None),
        (201, AcdSays::SayProbe, Some(1202), None),
        (1202, AcdSays::SayProbe, Some(2203), None),
        (2203, AcdSays::SayProbe, Some(4203), None),
        (4203, AcdSays::Passed, Some(6203), Some(ADDR)),
        (6203, AcdSays::SayAnnounce, None, Some(ADDR)),
    ];
    follows(&rt, &mut acd, &rows);
}

#[test]
fn a_probe_that_was_not_sent_begins_the_probing_anew(rt: HostRuntime) {
    let mut acd = acd_begin(FIRST, ADDR, 200, 0);
    let _ = acd.tick(201, 0);
    let _ = acd.tick(1202, 0);
    acd_unsent(&mut acd, 2203, 0);
    let rows = [
        (2203, AcdSays::Quiet, Some(2204), None),
        (2204, AcdSays::SayProbe, Some(3205), None),
        (3205, AcdSays::SayProbe, Some(4206), None),
        (4206, AcdSays::SayProbe, Some(6206), None),
        (6206, AcdSays::Passed, Some(8206), Some(ADDR)),
    ];
    follows(&rt, &mut acd, &rows);
}

#[test]
fn a_conflict_ends_the_probing(rt: HostRuntime) {
    let mut acd = probed();
    for (sender, says, due) in [
        // its own reply, and another host's
        (1, AcdSays::Quiet, Some(4203)),
        (0xaa, AcdSays::Conflict, None),
    ] {
        let said = acd_heard(&mut acd, &reply_from(sender), 2300, &OWN);
        assert_eq!(rt; (said, acd.due()), (says, due));
    }
}

#[test]
fn a_second_conflict_within_ten_seconds_is_one_too_many(rt: HostRuntime) {
    let other = reply_from(0xaa);
    for (at, says) in [(109_999, AcdSays::GivenUp), (110_000, AcdSays::SayAnnounce)] {
        let mut acd = held();
        let first = acd_heard(&mut acd, &other, 100_000, &OWN);
        let second = acd_heard(&mut acd, &other, at, &OWN);
        assert_eq!(rt; (first, second), (AcdSays::SayAnnounce, says), "at {at}");
    }
}
