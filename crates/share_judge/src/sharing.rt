//! Whether an address is one out of a prefix.

ghost use Rattle.std.specs.Prelude.{◌≡◌};
ghost use Rattle.std.specs.List.{AllByRecursion, list_any};
ghost use Rattle.settings.specs.Dhcp6Settings.{FitsShareConf};
ghost use Rattle.settings.specs.Fitting.{FitsManaged};
ghost use Rattle.share_judge.specs.Sharing.{gives_by, gives_first, is_first, is_shared, shares_out};

use crate::prefix::HeldPrefix;
use net_types::{IfIndex, Net, Net6};
use prefix_share::subnet;
use settings::{Managed, ShareConf};

/// Whether an address is the first one of a subnet after that of its routers (RFC 4291, section 2.6.1).
fn is_first(net: Net, subnet: Net6) -> bool
    ensures { result ≡ is_first net subnet }
{
    match net {
        Net::V4(_) => false,
        Net::V6(net) => {
            net.ip.number != 0 && net.ip.number - 1 == subnet.ip.number && net.len == subnet.len
        }
    }
}

fn gives_first(net: Net, subnet: Option<Net6>) -> bool
    ensures { result ≡ gives_first net subnet }
{
    match subnet {
        None => false,
        Some(subnet) => is_first(net, subnet),
    }
}

/// Whether a share of the prefix gives the address to the interface of this index.
fn gives_by(index: IfIndex, net: Net, held: &HeldPrefix, share: &ShareConf) -> bool
    requires { FitsShareConf share.now }
    ensures { result ≡ gives_by index net held.now share.now }
{
    share.outlet.iface == index
        && share.iaid == held.iaid
        && gives_first(net, subnet(held.net, &share.share))
}

fn some_gives(index: IfIndex, net: Net, held: &HeldPrefix, shares: &[ShareConf]) -> bool
    requires { AllByRecursion FitsShareConf shares.now }
    ensures { result ≡ list_any (gives_by index net held.now) shares.now }
{
    for share in shares {
        if gives_by(index, net, held, share) {
            return true;
        }
    }
    false
}

/// Whether a prefix that the interface upstream holds gives the address to the interface of this index, which is
/// another one.
pub fn shares_out(upstream: &Managed, index: IfIndex, net: Net, held: &HeldPrefix) -> bool
    requires { FitsManaged upstream.now }
    ensures { result ≡ shares_out upstream.now index net held.now }
{
    index != upstream.spec.index && some_gives(index, net, held, &upstream.conf.dhcp6.shares)
}

/// Whether one of the prefixes that it holds does.
pub fn is_shared(upstream: &Managed, index: IfIndex, net: Net, held: &[HeldPrefix]) -> bool
    requires { FitsManaged upstream.now }
    ensures { result ≡ is_shared upstream.now index net held.now }
{
    for one in held {
        if shares_out(upstream, index, net, one) {
            return true;
        }
    }
    false
}
