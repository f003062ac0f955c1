//! Test cases of the retransmission times of DHCPv6 messages, and of when retransmission ends (RFC 8415, section 15).

use net_types::IfIndex;
use std::test::*;
use v6_retrans::parameters::{DECLINE, RENEW, REQUEST, SOLICIT};
use v6_retrans::{Parameters, Retrans, draw_positive_rand, draw_rand};

const FIRST: IfIndex = IfIndex { number: 1 };

#[test]
fn times_with_salt_0(rt: HostRuntime) {
    let rand = draw_rand(0, FIRST);
    let mut solicit = Retrans::first(SOLICIT, draw_positive_rand(0, FIRST));
    let first = solicit.rt;
    solicit.next(rand);
    let second = solicit.rt;
    solicit.next(rand);
    assert_eq!(rt; (rand, first, second, solicit.rt), (1, 1_002, 1_904, 3_619));
    assert!(rt; !solicit.is_over());

    let mut renew = Retrans::first(RENEW, rand);
    let first = renew.rt;
    renew.next(rand);
    assert_eq!(rt; (first, renew.rt), (9_010, 17_128));
}

#[test]
fn times_end(rt: HostRuntime) {
    let mut decline = Retrans::first(DECLINE, 100);
    decline.next(100);
    decline.next(100);
    assert!(rt; !decline.is_over());
    decline.next(100);
    assert!(rt; decline.is_over());
    assert_eq!(rt; decline.rt, 8_000);

    let capped = Parameters {
        irt: 20_000,
        ..REQUEST
    };
    let mut request = Retrans::first(capped, 100);
    request.next(200);
    assert_eq!(rt; request.rt, 33_000);
}
