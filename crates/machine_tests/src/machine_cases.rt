//! Test cases of the numbers and transaction ids that come of a salt, and of the limit of moments.

use machine::{LAST_MOMENT, clamp_moment, draw, draw_xid};
use net_types::IfIndex;
use std::rt::HostRuntime;

const FIRST: IfIndex = IfIndex { number: 1 };

#[test]
fn draws_follow_the_salt(rt: HostRuntime) {
    assert_eq!(rt; draw(0, FIRST, 1001), 1);
    assert_eq!(rt; draw(65_012, FIRST, 65_024), 65_013);
    assert_eq!(rt; draw_xid(0, FIRST, None), 1);
    assert_eq!(rt; draw_xid(0, FIRST, Some(1)), 2);
    assert_eq!(rt; draw_xid(7 << 32, FIRST, Some(1)), 8);
}

#[test]
fn a_moment_is_below_the_limit(rt: HostRuntime) {
    assert_eq!(rt; clamp_moment(7), 7);
    assert_eq!(rt; clamp_moment(1_000_000_000_000_000), LAST_MOMENT);
}
