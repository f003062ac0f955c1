//! The messages that a client says (RFC 2131, section 4.4.1 and table 5).

ghost use Rattle.std.specs.Prelude.{◌≡◌};
ghost use Rattle.v4_client.specs.Saying.{base, decline, discover, flags, release, rebinding_request, renewing_request, request, sent_of, to_everyone, to_server};

use crate::setup::Site4;
use crate::states::{Exchange4, Say4, To4};
use lease_text::Terms4;
use net_types::Ip4;
use udp_frame::Ends4;
use v4_frames::{BROADCAST_FLAG, EVERY_MAC, Sent4};
use v4_message::{Kind4, Said4};

impl Say4 {
    /// The message as it goes in a frame.
    pub fn sent(&self) -> Sent4
        ensures { result ≡ sent_of self.now }
    {
        Sent4 {
            ends: self.ends,
            said: self.said,
        }
    }
}

fn flags(site: Site4) -> u16
    ensures { result ≡ flags site }
{
    if site.flags.broadcast {
        BROADCAST_FLAG
    } else {
        0
    }
}

/// A message without what its kind adds.
fn base(site: Site4, kind: Kind4, xid: u32) -> Said4
    ensures { result ≡ base site kind xid }
{
    Said4 {
        kind,
        xid,
        secs: 0,
        flags: 0,
        ciaddr: Ip4::UNSPECIFIED,
        mac: site.iface.mac,
        asked: None,
        server: None,
    }
}

fn to_everyone(said: Said4) -> Say4
    ensures { result ≡ to_everyone said }
{
    Say4 {
        said,
        to: To4::Everyone,
        ends: Ends4 {
            from_mac: said.mac,
            to_mac: EVERY_MAC,
            from: said.ciaddr,
            to: Ip4::BROADCAST,
        },
    }
}

fn to_server(terms: Terms4, said: Said4) -> Say4
    ensures { result ≡ to_server terms said }
{
    Say4 {
        said,
        to: To4::Server,
        ends: Ends4 {
            from_mac: said.mac,
            to_mac: terms.server_mac,
            from: said.ciaddr,
            to: terms.server,
        },
    }
}

/// DISCOVER.
pub(crate) fn discover(site: Site4, xid: u32, secs: u16) -> Say4
    ensures { result ≡ discover site xid secs }
{
    to_everyone(Said4 {
        secs,
        flags: flags(site),
        ..base(site, Kind4::Discover, xid)
    })
}

/// REQUEST for an offered address, or for that of the kept lease.
pub(crate) fn request(site: Site4, exchange: Exchange4, secs: u16) -> Say4
    ensures { result ≡ request site exchange secs }
{
    to_everyone(Said4 {
        secs,
        flags: flags(site),
        asked: Some(exchange.address),
        server: exchange.server,
        ..base(site, Kind4::Request, exchange.xid)
    })
}

/// REQUEST that renews a lease.
pub(crate) fn renewing_request(site: Site4, terms: Terms4, xid: u32) -> Say4
    ensures { result ≡ renewing_request site terms xid }
{
    to_server(
        terms,
        Said4 {
            ciaddr: terms.net.ip,
            ..base(site, Kind4::Request, xid)
        },
    )
}

/// REQUEST that rebinds a lease.
pub(crate) fn rebinding_request(site: Site4, terms: Terms4, xid: u32) -> Say4
    ensures { result ≡ rebinding_request site terms xid }
{
    to_everyone(Said4 {
        ciaddr: terms.net.ip,
        ..base(site, Kind4::Request, xid)
    })
}

/// DECLINE of a granted address that another host uses.
pub(crate) fn decline(site: Site4, terms: Terms4, xid: u32) -> Say4
    ensures { result ≡ decline site terms xid }
{
    to_everyone(Said4 {
        asked: Some(terms.net.ip),
        server: Some(terms.server),
        ..base(site, Kind4::Decline, xid)
    })
}

/// RELEASE of a lease.
pub(crate) fn release(site: Site4, terms: Terms4, xid: u32) -> Say4
    ensures { result ≡ release site terms xid }
{
    to_server(
        terms,
        Said4 {
            ciaddr: terms.net.ip,
            server: Some(terms.server),
            ..base(site, Kind4::Release, xid)
        },
    )
}
