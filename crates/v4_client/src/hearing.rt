//! What a client does with a message that was judged, and with an ARP packet.

ghost use Rattle.std.specs.Prelude.{◌≡◌};
ghost use Rattle.net_types.specs.Moments.{IsMoment};
ghost use Rattle.v4_client.specs.Hearing as hearing;

use crate::detection::{checked, defended, with_acd};
use crate::moments::Backoff;
use crate::states::{Answer4, Exchange4, News4, Origin4, State4, Step4, Turn4};
use crate::steps::{binds, bound_news, refused, requesting, rests};
use arp_acd::{Acd, acd_begin, acd_heard};
use frame_link::ArpView;
use lease_text::Terms4;
use net_types::Mac;

/// In Selecting.
fn offered(turn: Turn4, xid: u32, secs: u16, state: State4, answer: Answer4) -> Step4
    requires { IsMoment turn.at }
    ensures { result ≡ hearing.offered turn xid secs state answer }
{
    match answer {
        // REQUEST with the secs of the last DISCOVER
        Answer4::Offer { address, server } => {
            let exchange = Exchange4 {
                xid,
                address,
                server: Some(server),
                first: turn.at,
            };
            requesting(turn, exchange, secs, Backoff::Four)
        }
        Answer4::Nothing | Answer4::Ack(_) | Answer4::Nak => rests(turn, state),
    }
}

/// A granted address is bound at once, or checked first, while the client stands on its kept lease or not.
fn granted(turn: Turn4, xid: u32, terms: Terms4, origin: Origin4, stands: Option<Terms4>) -> Step4
    requires { IsMoment turn.at }
    ensures { result ≡ hearing.granted turn xid terms origin stands }
{
    if turn.site.flags.noarp {
        return binds(turn, xid, terms, bound_news(origin), None);
    }
    let acd = acd_begin(turn.site.iface.index, terms.net.ip, turn.at, turn.salt);
    rests(
        turn,
        State4::Checking {
            xid,
            terms,
            origin,
            acd,
            stands,
        },
    )
}

/// In Requesting and Rebooting.
fn answered(
    turn: Turn4,
    xid: u32,
    origin: Origin4,
    stands: Option<Terms4>,
    state: State4,
    answer: Answer4,
) -> Step4
    requires { IsMoment turn.at }
    ensures { result ≡ hearing.answered turn xid origin stands state answer }
{
    match answer {
        // the lease is bound, or its address checked
        Answer4::Ack(terms) => granted(turn, xid, terms, origin, stands),
        Answer4::Nak => refused(turn),
        Answer4::Nothing | Answer4::Offer { .. } => rests(turn, state),
    }
}

/// In Renewing and Rebinding.
fn renewed(
    turn: Turn4,
    xid: u32,
    news: News4,
    acd: Option<Acd>,
    state: State4,
    answer: Answer4,
) -> Step4
    requires { IsMoment turn.at }
    ensures { result ≡ hearing.renewed turn xid news acd state answer }
{
    match answer {
        // the lease is replaced
        Answer4::Ack(terms) => binds(turn, xid, terms, news, acd),
        Answer4::Nak => refused(turn),
        Answer4::Nothing | Answer4::Offer { .. } => rests(turn, state),
    }
}

/// A message that says `answer` to a client in this state.
pub(crate) fn heard_row(turn: Turn4, answer: Answer4, state: State4) -> Step4
    requires { IsMoment turn.at }
    ensures { result ≡ hearing.heard_row turn answer state }
{
    match state {
        // an OFFER
        State4::Selecting { xid, secs, .. } => offered(turn, xid, secs, state, answer),
        // an ACK or a NAK
        State4::Requesting { exchange, .. } => {
            answered(turn, exchange.xid, Origin4::Offered, None, state, answer)
        }
        State4::Rebooting {
            exchange,
            stands,
            ..
        } => answered(turn, exchange.xid, Origin4::Rebooted, stands, state, answer),
        // an ACK replaces the lease; a NAK ends it
        State4::Renewing { exchange, acd, .. } => {
            renewed(turn, exchange.xid, News4::Renew, acd, state, answer)
        }
        State4::Rebinding { exchange, acd, .. } => {
            renewed(turn, exchange.xid, News4::Rebind, acd, state, answer)
        }
        // no answer is waited for
        State4::Off
        | State4::Init { .. }
        | State4::Checking { .. }
        | State4::Waiting { .. }
        | State4::Bound { .. } => rests(turn, state),
    }
}

/// The conflict detection of a held address hears a packet.
fn contested(
    own: &[Mac],
    turn: Turn4,
    arp: &ArpView,
    xid: u32,
    terms: Terms4,
    state: State4,
    acd: Option<Acd>,
) -> Step4
    requires { IsMoment turn.at }
    ensures { result ≡ hearing.contested own.now turn arp.now xid terms state acd }
{
    let Some(mut acd) = acd else {
        return rests(turn, state);
    };
    let says = acd_heard(&mut acd, arp, turn.at, own);
    defended(turn, xid, terms, with_acd(state, acd), says)
}

/// An ARP packet. `own` holds the hardware addresses of all interfaces of the host's client.
pub(crate) fn arp_row(own: &[Mac], turn: Turn4, arp: &ArpView, state: State4) -> Step4
    requires { IsMoment turn.at }
    ensures { result ≡ hearing.arp_row own.now turn arp.now state }
{
    match state {
        State4::Checking {
            xid,
            terms,
            origin,
            mut acd,
            stands,
        } => {
            let says = acd_heard(&mut acd, arp, turn.at, own);
            checked(turn, xid, terms, origin, acd, stands, says)
        }
        State4::Bound { xid, terms, acd } => contested(own, turn, arp, xid, terms, state, acd),
        State4::Renewing {
            exchange,
            terms,
            acd,
            ..
        }
        | State4::Rebinding {
            exchange,
            terms,
            acd,
            ..
        } => contested(own, turn, arp, exchange.xid, terms, state, acd),
        State4::Off
        | State4::Init { .. }
        | State4::Selecting { .. }
        | State4::Requesting { .. }
        | State4::Rebooting { .. }
        | State4::Waiting { .. } => rests(turn, state),
    }
}
