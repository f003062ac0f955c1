//! Test cases of IPv4 link-local addresses: choosing, probing and defending one, and the time-out without a lease
//! (RFC 3927).

use arp_acd::ArpSay;
use frame_link::ArpView;
use ipv4ll::{
    Fallback, LinkLocal, LlNews, LlOut, Waits, ll_arm, ll_drop, ll_heard, ll_held, ll_off,
    ll_unsent,
};
use machine::Machine;
use net_types::{IfIndex, Ip4, Mac};
use std::process::Abort;
use std::rt::HostRuntime;

const FIRST: IfIndex = IfIndex { number: 1 };

const OWN: [Mac; 1] = [Mac {
    bytes: [2, 0, 0, 0, 0, 1],
}];
/// 169.254.1.1
const CHOSEN: Ip4 = Ip4 {
    number: 0xa9fe_0101,
};

const QUIET: LlOut = LlOut {
    arp: None,
    news: LlNews::Nothing,
};

const PROBE: LlOut = LlOut {
    arp: Some(ArpSay::Probe(CHOSEN)),
    news: LlNews::Nothing,
};

const ANNOUNCE: LlOut = LlOut {
    arp: Some(ArpSay::Announce(CHOSEN)),
    news: LlNews::Nothing,
};

/// Another host says that it has the address.
fn reply_for(addr: u32) -> ArpView {
    ArpView {
        op: 2,
        sender_mac: Mac {
            bytes: [2, 0, 0, 0, 0, 0xaa],
        },
        sender: Ip4 { number: addr },
        target: Ip4 { number: 0 },
    }
}

/// Armed at 0 without a lease to wait for, with an address chosen in the turn at 0.
fn chosen() -> LinkLocal {
    let mut ll = ll_off(FIRST);
    ll_arm(&mut ll, 0, Waits::ForNothing, Fallback::Choose);
    let _ = ll.tick(0, 0);
    ll
}

/// The address is held since 4003 and was announced twice.
fn held() -> LinkLocal {
    let mut ll = chosen();
    for at in [1, 1002, 2003, 4003, 6003] {
        let _ = ll.tick(at, 0);
    }
    ll
}

/// At a moment the machine does this, is due then, and holds this address.
type Row = (u64, LlOut, Option<u64>, Option<Ip4>);

/// The machine does what the rows say, one after another.
fn follows(rt: &impl Abort, ll: &mut LinkLocal, rows: &[Row]) {
    for (at, out, due, held) in rows {
        let done = ll.tick(*at, 0);
        assert_eq!(rt;
            (done, ll.due(), ll_held(ll)),
            (*out, *due, *held),
            "at {at}"
        );
    }
}

#[test]
fn an_address_is_gained_after_three_probes(rt: HostRuntime) {
    let mut ll = ll_off(FIRST);
    assert_eq!(rt; ll.due(), None);
    ll_arm(&mut ll, 0, Waits::ForNothing, Fallback::Choose);
    assert_eq!(rt; ll.due(), Some(0));
    let gained = LlOut {
        news: LlNews::Gained,
        ..ANNOUNCE
    };
    let rows = [
        (0, QUIET, Some(1), None),
        (1, PROBE, Some(1002), None),
        (1002, PROBE, Some(2003), None),
        (2003, PROBE, Some(4003), None),
        (4003, gained, Some(6003), Some(CHOSEN)),
        (6003, ANNOUNCE, None, Some(CHOSEN)),
    ];
    follows(&rt, &mut ll, &rows);
    ll_drop(&mut ll);
    assert_eq!(rt; ll_held(&ll), None);
}

#[test]
fn a_conflict_while_probing_gives_another_choice(rt: HostRuntime) {
    let mut ll = chosen();
    let _ = ll.tick(1, 0);
    let _ = ll.tick(1002, 0);
    let heard = ll_heard(&mut ll, &reply_for(0xa9fe_0101), 1500, 0, &OWN);
    assert_eq!(rt; (heard, ll.due()), (QUIET, Some(1501)));
    let other = LlOut {
        arp: Some(ArpSay::Probe(Ip4 {
            number: 0xa9fe_0102,
        })),
        news: LlNews::Nothing,
    };
    assert_eq!(rt; ll.tick(1501, 0), other);
}

#[test]
fn a_probe_that_was_not_sent_begins_the_probing_anew(rt: HostRuntime) {
    let mut ll = chosen();
    let _ = ll.tick(1, 0);
    let _ = ll.tick(1002, 0);
    ll_unsent(&mut ll, 2003, 0);
    let rows = [
        (2003, QUIET, Some(2004), None),
        (2004, PROBE, Some(3005), None),
        (3005, PROBE, Some(4006), None),
        (4006, PROBE, Some(6006), None),
    ];
    follows(&rt, &mut ll, &rows);
}

#[test]
fn the_tenth_conflict_is_followed_by_a_minute(rt: HostRuntime) {
    let mut ll = chosen();
    for addr in 0xa9fe_0101..0xa9fe_010b {
        assert!(rt; ll.due() != Some(560_000));
        let _ = ll_heard(&mut ll, &reply_for(addr), 500_000, 0, &OWN);
    }
    assert_eq!(rt; ll.due(), Some(560_000));
    assert_eq!(rt; ll.tick(560_000, 65_012), QUIET);
    let due = 560_000 + 1 + 65_012 % 1001;
    let last = LlOut {
        arp: Some(ArpSay::Probe(Ip4 {
            number: 0xa9fe_feff,
        })),
        news: LlNews::Nothing,
    };
    assert_eq!(rt; ll.tick(due, 0), last);
}

#[test]
fn a_held_address_is_defended_once_in_ten_seconds(rt: HostRuntime) {
    let other = reply_for(0xa9fe_0101);
    let lost = LlOut {
        news: LlNews::Lost(CHOSEN),
        ..QUIET
    };
    for (at, out, still) in [(109_999, lost, None), (110_000, ANNOUNCE, Some(CHOSEN))] {
        let mut ll = held();
        let first = ll_heard(&mut ll, &other, 100_000, 0, &OWN);
        let second = ll_heard(&mut ll, &other, at, 0, &OWN);
        assert_eq!(rt;
            (first, second, ll_held(&ll)),
            (ANNOUNCE, out, still),
            "at {at}"
        );
    }
}

#[test]
fn without_a_lease_the_time_out_is_told(rt: HostRuntime) {
    let mut ll = ll_off(FIRST);
    ll_arm(&mut ll, 30_000, Waits::ForLease, Fallback::GoOff);
    let timeout = LlOut {
        news: LlNews::Timeout,
        ..QUIET
    };
    let rows = [
        (29_999, QUIET, Some(30_000), None),
        (30_000, timeout, None, None),
    ];
    follows(&rt, &mut ll, &rows);
}
