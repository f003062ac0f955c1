//! Test cases of dividing a delegated IPv6 prefix among interfaces: what each gets, which faults are found, and how
//! those are printed.

ghost use Rattle.std.specs.Prelude.{◌≡◌};

use net_types::{Ip6, Name, Net6};
use prefix_share::{Share, ShareCause, ShareFault, plan, subnet};
use std::fmt::InlineText;
use std::test::*;

/// A share of eth1 where a prefix of this length is asked for.
fn share(hint: u8, sla: u32, len: u8) -> Share
    ensures { result.len ≡ len }
{
    let name = Name {
        bytes: *b"eth1\0\0\0\0\0\0\0\0\0\0\0",
        len: 4,
    };
    Share {
        name,
        sla,
        len,
        hint,
    }
}

fn net(number: u128, len: u8) -> Net6 {
    Net6 {
        ip: Ip6 { number },
        len,
    }
}

fn fault(share: usize, cause: ShareCause) -> Result<(), ShareFault> {
    Err(ShareFault { share, cause })
}

/// 2001:db8:0:ab00::/56
const DELEGATED: Net6 = Net6 {
    ip: Ip6 {
        number: 0x2001_0db8_0000_ab00_0000_0000_0000_0000,
    },
    len: 56,
};

#[test]
fn first_and_last_subnet(rt: HostRuntime) {
    let (low, high) = (share(56, 0, 64), share(56, 255, 64));
    assert_eq!(rt; plan(&[low, high]), Ok(()));
    let first = net(0x2001_0db8_0000_ab00_0000_0000_0000_0000, 64);
    assert_eq!(rt; subnet(DELEGATED, &low), Some(first));
    let last = net(0x2001_0db8_0000_abff_0000_0000_0000_0000, 64);
    assert_eq!(rt; subnet(DELEGATED, &high), Some(last));
}

#[test]
fn subnets_of_rfc_3633(rt: HostRuntime) {
    // 3ffe:ffff:0::/48, and what it might generate
    let prefix = net(0x3ffe_ffff_0000_0000_0000_0000_0000_0000, 48);
    let first = net(0x3ffe_ffff_0000_0001_0000_0000_0000_0000, 64);
    assert_eq!(rt; subnet(prefix, &share(48, 1, 64)), Some(first));
    let second = net(0x3ffe_ffff_0000_0002_0000_0000_0000_0000, 64);
    assert_eq!(rt; subnet(prefix, &share(48, 2, 64)), Some(second));
}

#[test]
fn last_subnet_and_the_one_after(rt: HostRuntime) {
    // 2001:db8::/60 and /65
    let number = 0x2001_0db8_0000_0000_0000_0000_0000_0000;
    let last = net(0x2001_0db8_0000_000f_0000_0000_0000_0000, 64);
    assert_eq!(rt; subnet(net(number, 60), &share(60, 15, 64)), Some(last));
    assert_eq!(rt; subnet(net(number, 60), &share(60, 16, 64)), None);
    // a subnet that is larger than the prefix
    assert_eq!(rt; subnet(net(number, 65), &share(65, 0, 64)), None);
}

#[test]
fn no_subnet(rt: HostRuntime) {
    let large = share(56, 256, 64);
    assert_eq!(rt; plan(&[large]), fault(1, ShareCause::TooLarge));
    assert_eq!(rt; subnet(DELEGATED, &large), None);
    assert_eq!(rt; subnet(DELEGATED, &share(48, 0, 48)), None);
}

#[test]
fn first_fault(rt: HostRuntime) {
    let (first, twice) = (share(56, 1, 64), share(56, 1, 64));
    assert_eq!(rt; plan(&[first, twice]), fault(2, ShareCause::SameSla));
    let longer = share(56, 256, 65);
    assert_eq!(rt;
        plan(&[first, longer, twice]),
        fault(2, ShareCause::MixedLength)
    );
}

/// Each cause by its name.
const CAUSES: [(ShareCause, &str); 3] = [
    (ShareCause::SameSla, "SameSla"),
    (ShareCause::TooLarge, "TooLarge"),
    (ShareCause::MixedLength, "MixedLength"),
];

#[test]
fn causes_are_printed_by_name(rt: HostRuntime) {
    for (cause, name) in CAUSES {
        assert_eq!(rt; InlineText::<64>::of(cause).as_str(), name);
        let fault = ShareFault { share: 2, cause };
        let printed = InlineText::<64>::of(fault);
        assert_eq!(rt; printed.as_str().strip_prefix("share 2: "), Some(name));
    }
}
