//! What a message says to a client: whether it is acceptable in its state.

ghost use Rattle.std.specs.Prelude.{◌≡◌, Some};
ghost use Rattle.net_types.specs.Moments.{IsMoment};
ghost use Rattle.v4_client.specs.Answers.{answer_of, answering, is_answer, is_blacklisted, is_chosen, is_unexpired, offer_by, offer_of, reply_by, reply_in, reply_of};
ghost use Rattle.v4_client.specs.Messages.{arrival_of};
ghost use Rattle.v4_client.specs.Settings.{settings_content};
ghost use Rattle.v4_client.specs.Sound.{FitsState};

use crate::moments::SECOND;
use crate::options::{are_there, terms_granted};
use crate::setup::Set4;
use crate::states::{Answer4, Exchange4, State4};
use lease_text::{INFINITE_LEASE, is_host_address};
use net_types::{Ip4, Mac};
use v4_message::{MessageKind, Msg4};
use v4_options::{addr_at, code, u32_at};

/// A message as it was heard: from which hardware address, and at which moment.
#[derive(Clone, Copy)]
pub struct Arrival4<'a> {
    pub message: Msg4<'a>,
    pub source: Mac,
    pub at: u64,
}

/// Whether the message is an answer in an exchange of this client.
fn is_answer(set: &Set4, xid: u32, arrival: &Arrival4) -> bool
    ensures { result ≡ is_answer (settings_content set.now) xid (arrival_of arrival.now) }
{
    arrival.message.xid == xid && arrival.message.chaddr == set.iface.mac
}

fn is_blacklisted(set: &Set4, server: Ip4) -> bool
    ensures { result ≡ is_blacklisted (settings_content set.now) server }
{
    set.blacklist.iter().any(|net| net.contains(server))
}

/// The server that answers in an exchange of this client, where it is listened to.
fn answering(set: &Set4, xid: u32, arrival: &Arrival4) -> Option<Ip4>
    ensures { result ≡ answering (settings_content set.now) xid (arrival_of arrival.now) }
{
    if !is_answer(set, xid, arrival) {
        return None;
    }
    let server = addr_at(&arrival.message.options, code::SERVER_IDENTIFIER)?;
    if is_blacklisted(set, server) {
        return None;
    }
    Some(server)
}

/// What the OFFER of a server says.
fn offer_of(set: &Set4, arrival: &Arrival4, server: Ip4) -> Answer4
    ensures { result ≡ offer_of (settings_content set.now) (arrival_of arrival.now) server MessageKind.Offer }
{
    let message = &arrival.message;
    if u32_at(&message.options, code::LEASE_TIME).is_none() {
        return Answer4::Nothing;
    }
    if !is_host_address(message.yiaddr) {
        return Answer4::Nothing;
    }
    if !are_there(&message.options, &set.required) {
        return Answer4::Nothing;
    }
    Answer4::Offer {
        address: message.yiaddr,
        server,
    }
}

/// What the message of a server says to a client that waits for an offer.
fn offer_by(set: &Set4, arrival: &Arrival4, server: Ip4) -> Answer4
    ensures { result ≡ offer_by (settings_content set.now) (arrival_of arrival.now) (Some server) }
{
    match arrival.message.kind {
        MessageKind::Offer => offer_of(set, arrival, server),
        MessageKind::Discover
        | MessageKind::Request
        | MessageKind::Decline
        | MessageKind::Ack
        | MessageKind::Nak
        | MessageKind::Release
        | MessageKind::Inform => Answer4::Nothing,
    }
}

/// Whether it is the chosen server, where one was chosen.
fn is_chosen(chosen: Option<Ip4>, server: Ip4) -> bool
    ensures { result ≡ is_chosen chosen server }
{
    match chosen {
        Some(chosen) => server.number == chosen.number,
        None => true,
    }
}

/// Whether a lease of so many seconds, counted from `first`, isn't over at a moment in milliseconds since 1970.
pub fn is_unexpired(first: u64, lease: u32, at: u64) -> bool
    requires { IsMoment first }
    ensures { result ≡ is_unexpired first lease at }
{
    lease == INFINITE_LEASE || at < first + SECOND * u64::from(lease)
}

/// What the ACK of a server says of the exchange.
fn ack_by(set: &Set4, exchange: Exchange4, arrival: &Arrival4, server: Ip4) -> Answer4
    requires { IsMoment exchange.first }
    ensures { result ≡ reply_of (settings_content set.now) exchange (arrival_of arrival.now) server MessageKind.Ack }
{
    let message = &arrival.message;
    let Some(lease) = u32_at(&message.options, code::LEASE_TIME) else {
        return Answer4::Nothing;
    };
    if message.yiaddr.number != exchange.address.number {
        return Answer4::Nothing;
    }
    if lease == 0 {
        return Answer4::Nothing;
    }
    if !is_unexpired(exchange.first, lease, arrival.at) {
        return Answer4::Nothing;
    }
    if !are_there(&message.options, &set.required) {
        return Answer4::Nothing;
    }
    Answer4::Ack(terms_granted(arrival, set, exchange, server, lease))
}

/// What the message of a server says of the exchange.
fn reply_by(set: &Set4, exchange: Exchange4, arrival: &Arrival4, server: Ip4) -> Answer4
    requires { IsMoment exchange.first }
    ensures { result ≡ reply_by (settings_content set.now) exchange (arrival_of arrival.now) (Some server) }
{
    if !is_chosen(exchange.server, server) {
        return Answer4::Nothing;
    }
    match arrival.message.kind {
        MessageKind::Ack => ack_by(set, exchange, arrival, server),
        MessageKind::Nak => Answer4::Nak,
        MessageKind::Discover
        | MessageKind::Offer
        | MessageKind::Request
        | MessageKind::Decline
        | MessageKind::Release
        | MessageKind::Inform => Answer4::Nothing,
    }
}

/// What the message says to a client that waits for an ACK (RFC 2131, section 4.3.1). It takes no memory.
pub fn reply_in(set: &Set4, arrival: &Arrival4, exchange: Exchange4) -> Answer4
    requires { IsMoment exchange.first }
    ensures { result ≡ reply_in (settings_content set.now) (arrival_of arrival.now) exchange }
{
    match answering(set, exchange.xid, arrival) {
        Some(server) => reply_by(set, exchange, arrival, server),
        None => Answer4::Nothing,
    }
}

/// What the message says to a client in this state. It takes no memory.
pub(crate) fn answer_of(set: &Set4, arrival: &Arrival4, state: State4) -> Answer4
    requires { FitsState state }
    ensures { result ≡ answer_of (settings_content set.now) (arrival_of arrival.now) state }
{
    match state {
        State4::Selecting { xid, .. } => match answering(set, xid, arrival) {
            Some(server) => offer_by(set, arrival, server),
            None => Answer4::Nothing,
        },
        State4::Requesting { exchange, .. }
        | State4::Rebooting { exchange, .. }
        | State4::Renewing { exchange, .. }
        | State4::Rebinding { exchange, .. } => reply_in(set, arrival, exchange),
        State4::Off
        | State4::Init { .. }
        | State4::Checking { .. }
        | State4::Waiting { .. }
        | State4::Bound { .. } => Answer4::Nothing,
    }
}
