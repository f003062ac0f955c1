//! What is kept of an interface from turn to turn: its exchanges, and what was granted in them (RFC 2131, sections 3.1
//! and 4.4). Moments are in milliseconds since 1970.

ghost use Rattle.std.specs.Prelude.{◌≡◌, ◌&&◌, not, IfOk};
ghost use Rattle.std.specs.List.{list_any};
ghost use Rattle.net_types.specs.Moments.{IsMoment};
ghost use Rattle.own_frames4.specs.LeaseEvidence.Exchanges.{exchange_of, opens, requests, says, show, shows};
ghost use Rattle.own_frames4.specs.LeaseEvidence.LeaseBasis.{ends_lease, tells_end};
ghost use Rattle.lease_judge.specs.Judge.{stays, told};
ghost use Rattle.lease_judge.specs.Leased.{grants, is_same};
ghost use Rattle.lease_judge.specs.Numbers.{granted_number, open_number};
ghost use Rattle.lease_judge.specs.Watched.{HasMoment, HasMoments, first_of, judge_shown, numbered_shown, seen_shown, sees_by};

use lease_text::Terms4;
use local_judge::carrier_after;
use net_types::{Net4, NoMemory};
use v4_client::{Answer4, Exchange4, is_unexpired};
use v4_frames::Sent4;
use v4_message::{Kind4, Said4};
use world::Event;

/// An exchange that was opened, and its number, counted from 1, since two may be alike.
#[derive(Clone, Copy)]
pub struct Numbered {
    pub number: u64,
    pub exchange: Exchange4,
}

/// How many exchanges were opened, and the one that is open.
#[derive(Clone, Copy)]
pub struct Seen {
    pub count: u64,
    pub current: Option<Numbered>,
}

/// An exchange that was granted, and the terms of its first acceptable ACK.
#[derive(Clone, Copy)]
pub struct Granted {
    pub opened: Numbered,
    pub terms: Terms4,
}

/// Whether the interface has carrier, its exchanges, the number of the last one that had an acceptable ACK, and its
/// grant, while that stands.
#[derive(Clone, Copy)]
pub struct Watch {
    pub up: bool,
    pub seen: Seen,
    pub answered: u64,
    pub granted: Option<Granted>,
}

/// The exchange that a REQUEST opens at a moment: it asks for the address that it names, else for the client's own.
fn exchange_of(at: u64, said: Said4) -> Exchange4
    ensures { result ≡ exchange_of at said }
{
    let address = match said.asked {
        Some(address) => address,
        None => said.ciaddr,
    };
    Exchange4 {
        xid: said.xid,
        address,
        server: said.server,
        first: at,
    }
}

impl Seen {
    /// With an exchange that is opened. Where the numbers are used up there is no room for it.
    fn opening(&self, at: u64, said: Said4) -> Result<Seen, NoMemory>
        requires { IsMoment at }
        ensures seen { IfOk result (λ seen. seen_shown seen ≡ opens at said self.now.count) }
        ensures moment { IfOk result HasMoment }
    {
        let Some(number) = self.count.checked_add(1) else {
            return Err(NoMemory);
        };
        let exchange = exchange_of(at, said);
        Ok(Seen {
            count: number,
            current: Some(Numbered { number, exchange }),
        })
    }

    /// After a REQUEST, which goes on with the open exchange if it has its transaction id.
    fn requesting(&self, at: u64, said: Said4) -> Result<Seen, NoMemory>
        requires at { IsMoment at }
        requires kept { HasMoment self.now }
        ensures seen { IfOk result
            (λ seen. seen_shown seen ≡ requests at said (seen_shown self.now) (seen_shown self.now).current) }
        ensures moment { IfOk result HasMoment }
    {
        match self.current {
            Some(open) if open.exchange.xid == said.xid => Ok(*self),
            Some(_) | None => self.opening(at, said),
        }
    }

    /// After a message of the client.
    fn saying(&self, at: u64, said: Said4) -> Result<Seen, NoMemory>
        requires at { IsMoment at }
        requires kept { HasMoment self.now }
        ensures seen { IfOk result (λ seen. seen_shown seen ≡ says at said (seen_shown self.now) said.kind) }
        ensures moment { IfOk result HasMoment }
    {
        match said.kind {
            Kind4::Request => self.requesting(at, said),
            Kind4::Discover | Kind4::Decline | Kind4::Release => Ok(Seen {
                count: self.count,
                current: None,
            }),
        }
    }

    /// After a frame, which may be no message of the client.
    fn showing(&self, at: u64, message: Option<Sent4>) -> Result<Seen, NoMemory>
        requires at { IsMoment at }
        requires kept { HasMoment self.now }
        ensures seen { IfOk result (λ seen. seen_shown seen ≡ shows at message (seen_shown self.now)) }
        ensures moment { IfOk result HasMoment }
    {
        match message {
            Some(sent) => self.saying(at, sent.said),
            None => Ok(*self),
        }
    }

    /// After the frames of a turn.
    #[tactic(auto, using(crate::proofs::ShownMessages::one_seen))]
    fn after(&self, at: u64, messages: &[Option<Sent4>]) -> Result<Seen, NoMemory>
        requires at { IsMoment at }
        requires kept { HasMoment self.now }
        ensures seen { IfOk result (λ seen. seen_shown seen ≡ show at messages.now (seen_shown self.now)) }
        ensures moment { IfOk result HasMoment }
    {
        let mut seen = *self;
        for message in messages {
            seen = seen.showing(at, *message)?;
        }
        Ok(seen)
    }
}

/// Whether no carrier is taken from an interface that has it, nothing of it is given back, and no stop comes.
fn stays(up: bool, index: u32, event: Event) -> bool
    ensures { result ≡ stays up index event }
{
    match event {
        Event::Carrier { iface, up: now } => !(index == iface && up) || now,
        Event::Release { iface } => index != iface,
        Event::Stop => false,
        Event::Frame { .. }
        | Event::Duplicate { .. }
        | Event::Rebind { .. }
        | Event::Quiet
        | Event::End => true,
    }
}

/// Whether a message of the client tells that no lease is held.
fn tells_end(message: Option<Sent4>) -> bool
    ensures { result ≡ tells_end message }
{
    match message {
        Some(sent) => ends_lease(sent.said.kind),
        None => false,
    }
}

fn ends_lease(kind: Kind4) -> bool
    ensures { result ≡ ends_lease kind }
{
    match kind {
        Kind4::Discover | Kind4::Decline | Kind4::Release => true,
        Kind4::Request => false,
    }
}

fn is_same(net: Net4, other: Net4) -> bool
    ensures { result ≡ is_same net other }
{
    net.ip == other.ip && net.len == other.len
}

/// Whether one of these messages tells that.
fn say_end(messages: &[Option<Sent4>]) -> bool
    ensures { result ≡ list_any tells_end messages.now }
{
    messages.iter().any(|message| tells_end(*message))
}

impl Watch {
    /// Before all turns.
    pub fn first(up: bool) -> Watch
        ensures shown { judge_shown result ≡ first_of up }
        ensures moments { HasMoments result }
    {
        Watch {
            up,
            seen: Seen {
                count: 0,
                current: None,
            },
            answered: 0,
            granted: None,
        }
    }

    /// Whether a turn with such an input and such messages is calm: it ends no lease.
    pub fn is_calm(&self, index: u32, event: Event, messages: &[Option<Sent4>]) -> bool
        ensures { result ≡ (stays self.now.up index event && not (list_any tells_end messages.now)) }
    {
        stays(self.up, index, event) && !say_end(messages)
    }

    /// After the input and the messages of a turn. One that isn't calm ends the grant.
    pub fn sees(
        &self,
        at: u64,
        index: u32,
        event: Event,
        messages: &[Option<Sent4>],
    ) -> Result<Watch, NoMemory>
        requires at { IsMoment at }
        requires kept { HasMoments self.now }
        ensures seen { IfOk result
            (λ watch. judge_shown watch ≡ sees_by at index event messages.now (judge_shown self.now)) }
        ensures moments { IfOk result HasMoments }
    {
        let calm = self.is_calm(index, event, messages);
        Ok(Watch {
            up: carrier_after(index, event, self.up),
            seen: self.seen.after(at, messages)?,
            answered: self.answered,
            granted: if calm { self.granted } else { None },
        })
    }

    /// After a server's answer in the open exchange: an ACK is the grant from then on, and a NAK ends the one that
    /// stands.
    pub fn told(self, opened: Numbered, answer: Answer4) -> Watch
        requires opened { IsMoment opened.exchange.first }
        requires kept { HasMoments self }
        ensures shown { judge_shown result ≡ told (numbered_shown opened) answer (judge_shown self) }
        ensures moments { HasMoments result }
    {
        match answer {
            Answer4::Ack(terms) => Watch {
                answered: opened.number,
                granted: Some(Granted { opened, terms }),
                ..self
            },
            Answer4::Nak => Watch {
                granted: None,
                ..self
            },
            Answer4::Nothing | Answer4::Offer { .. } => self,
        }
    }

    /// The number of the exchange that is open.
    pub fn open_number(&self) -> Option<u64>
        ensures { result ≡ open_number (judge_shown self.now).seen }
    {
        match self.seen.current {
            Some(opened) => Some(opened.number),
            None => None,
        }
    }

    /// That of the exchange whose grant stands.
    pub fn granted_number(&self) -> Option<u64>
        ensures { result ≡ granted_number (judge_shown self.now).granted }
    {
        match self.granted {
            Some(granted) => Some(granted.opened.number),
            None => None,
        }
    }

    /// Whether the grant gives the address, and isn't over.
    pub fn grants(&self, net: Net4, now: u64) -> bool
        requires { HasMoments self.now }
        ensures { result ≡ grants (judge_shown self.now).granted net now }
    {
        match self.granted {
            None => false,
            Some(granted) => {
                is_same(net, granted.terms.net)
                    && is_unexpired(granted.opened.exchange.first, granted.terms.lease, now)
            }
        }
    }
}
