//! A turn of an interface that asks for its kept lease of DHCPv4 (RFC 2131, sections 3.2 and 4.3.2).

ghost use Rattle.std.specs.Prelude.{◌≡◌, true, List, [], ◌∷◌};
ghost use Rattle.audit_words.specs.EvidenceWords.Entries as told;
ghost use Rattle.lease6_evidence.specs.LeaseEvidence.Exchanges.{messages_at};
ghost use Rattle.net_types.specs.Moments.{IsMoment};
ghost use Rattle.lease_text.specs.Leases.{lease_content};
ghost use Rattle.audit_words.specs.Shown.{FitsSite, entry_shown, site_shown};
ghost use Rattle.kept_judge.specs.Asking4.{Tells4, answer_at, answered, asks_again, gives4, if_stays, is_asking4, is_kept4, is_net4, is_over4, is_request, names_address, said_all, said_maybe, said_one, turned4};

use crate::standing::{Asked4, Kept4};
use crate::staying::{carrier_after, stays};
use audit_words::{Entry, Site};
use lease_text::Lease4;
use net_types::{Ip4, Net, Net4};
use v4_client::{Answer4, is_unexpired};
use v4_frames::Sent4;
use v4_message::{Kind4, Said4};
use world::Event;

/// The address of a client that has none yet.
const NO_ADDRESS: Ip4 = Ip4 { number: 0 };

fn is_request(kind: Kind4) -> bool
    ensures { result ≡ is_request kind }
{
    match kind {
        Kind4::Discover => false,
        Kind4::Request => true,
        Kind4::Decline => false,
        Kind4::Release => false,
    }
}

fn names_address(address: Ip4, asked: Option<Ip4>) -> bool
    ensures { result ≡ names_address address asked }
{
    match asked {
        None => false,
        Some(named) => named == address,
    }
}

/// Whether a message is a REQUEST that asks for the address again.
fn asks_again(address: Ip4, said: &Said4) -> bool
    ensures { result ≡ asks_again address said.now }
{
    is_request(said.kind)
        && names_address(address, said.asked)
        && said.server.is_none()
        && said.ciaddr == NO_ADDRESS
}

impl Asked4 {
    /// The same, or nothing, where the lease is over.
    fn if_stays(self, stays: bool) -> Asked4
        ensures { result ≡ if_stays stays self }
    {
        if stays { self } else { Asked4::Over }
    }

    /// After a message of the interface.
    fn said_one(self, address: Ip4, said: &Said4) -> Asked4
        ensures { result ≡ said_one address said.now self }
    {
        match self {
            Asked4::Nothing if asks_again(address, said) => Asked4::Again {
                xid: said.xid,
                confirmed: false,
            },
            Asked4::Nothing => Asked4::Over,
            Asked4::Again { xid, confirmed } if asks_again(address, said) && said.xid == xid => {
                Asked4::Again { xid, confirmed }
            }
            Asked4::Again { .. } => Asked4::Over,
            Asked4::Over => Asked4::Over,
        }
    }

    fn said_maybe(self, address: Ip4, message: &Option<Sent4>) -> Asked4
        ensures { result ≡ said_maybe address message.now self }
    {
        match message {
            None => self,
            Some(sent) => self.said_one(address, &sent.said),
        }
    }

    /// After the messages of a turn.
    fn said_all(self, address: Ip4, messages: &[Option<Sent4>]) -> Asked4
        ensures { result ≡ said_all address messages.now self }
    {
        let mut asked = self;
        for message in messages {
            asked = asked.said_maybe(address, message);
        }
        asked
    }

    /// After what a server says in the exchange that is open.
    fn answered(self, said: Answer4) -> Asked4
        ensures { result ≡ answered self said }
    {
        match self {
            Asked4::Nothing => Asked4::Nothing,
            Asked4::Again { xid, confirmed } => match said {
                Answer4::Nothing => Asked4::Again { xid, confirmed },
                Answer4::Offer { .. } => Asked4::Again { xid, confirmed },
                Answer4::Ack(_) => Asked4::Again {
                    xid,
                    confirmed: true,
                },
                Answer4::Nak if confirmed => Asked4::Again {
                    xid,
                    confirmed: true,
                },
                Answer4::Nak => Asked4::Over,
            },
            Asked4::Over => Asked4::Over,
        }
    }

    /// Whether a server is asked for the lease, and none refused it.
    fn is_asking(self) -> bool
        ensures { result ≡ is_asking4 self }
    {
        match self {
            Asked4::Nothing => false,
            Asked4::Again { .. } => true,
            Asked4::Over => false,
        }
    }
}

fn is_net4(net: Net, other: Net4) -> bool
    ensures { result ≡ is_net4 net other }
{
    match net {
        Net::V4(net) => net.ip == other.ip && net.len == other.len,
        Net::V6(_) => false,
    }
}

impl Kept4 {
    /// Before all turns.
    #[tactic(auto, using(crate::proofs::Told4::first_tells))]
    pub fn first(site: &Site) -> Kept4
        ensures { Tells4 result (site_shown site.now) [] }
    {
        Kept4 {
            up: site.up,
            asked: Asked4::Nothing,
        }
    }

    /// After a turn of an interface of this number, whose kept lease has the address.
    fn after(
        self,
        index: u32,
        event: Event,
        address: Ip4,
        messages: &[Option<Sent4>],
        said: Answer4,
    ) -> Kept4
        ensures { result ≡ turned4 index event address messages.now said self }
    {
        let asked = self.asked.if_stays(stays(self.up, index, event));
        Kept4 {
            up: carrier_after(index, event, self.up),
            asked: asked.said_all(address, messages).answered(said),
        }
    }

    /// Whether the lease can't be held any more, whatever is said or heard.
    pub fn is_over(&self) -> bool
        ensures { result ≡ is_over4 self.now.asked }
    {
        match self.asked {
            Asked4::Nothing => false,
            Asked4::Again { .. } => false,
            Asked4::Over => true,
        }
    }

    /// After a further turn where it is over: nothing else is looked at.
    #[tactic(auto, using(crate::proofs::Told4::rests_tells4))]
    pub fn rests(self, site: &Site, entry: &Entry) -> Kept4
        requires { is_over4 self.asked ≡ true }
        ensures { (past : List told.Entry)
            → Tells4 self (site_shown site.now) past
            → Tells4 result (site_shown site.now) (entry_shown entry.now ∷ past) }
    {
        Kept4 {
            up: carrier_after(site.index(), entry.event, self.up),
            asked: Asked4::Over,
        }
    }

    /// After a further turn. `messages` are the interface's own DHCPv4 messages of the turn, and `said` is what a
    /// server says in the exchange that is open then (RFC 2131, section 3.2).
    #[tactic(auto, using(crate::proofs::Told4::turned_tells4, crate::proofs::Told4::nothing_tells))]
    pub fn turned(
        self,
        site: &Site,
        entry: &Entry,
        messages: &[Option<Sent4>],
        said: Answer4,
    ) -> Kept4
        ensures { (past : List told.Entry)
            → messages.now ≡ messages_at (site_shown site.now) (entry_shown entry.now)
            → said ≡ answer_at (site_shown site.now) (entry_shown entry.now) past
            → Tells4 self (site_shown site.now) past
            → Tells4 result (site_shown site.now) (entry_shown entry.now ∷ past) }
    {
        match &site.kept4 {
            None => self,
            Some(lease) => self.after(site.index(), entry.event, lease.net.ip, messages, said),
        }
    }

    /// Whether the lease gives the address at a moment.
    fn gives_of(&self, lease: &Lease4, net: Net, now: u64) -> bool
        requires { IsMoment lease.now.first }
        ensures { result ≡ gives4 net now (lease_content lease.now) self.now }
    {
        lease.origin.is_some()
            && is_net4(net, lease.net)
            && is_unexpired(lease.first, lease.lease, now)
            && self.up
            && self.asked.is_asking()
    }

    /// Whether an address may be held as that of the kept lease, at a moment in milliseconds since 1970.
    #[tactic(auto, using(crate::proofs::Told4::none_held, crate::proofs::Told4::one_held))]
    pub fn gives(&self, site: &Site, net: Net, now: u64) -> bool
        requires { FitsSite site.now }
        ensures { (past : List told.Entry)
            → Tells4 self.now (site_shown site.now) past
            → result ≡ is_kept4 (site_shown site.now) net now past }
    {
        site.managed.conf.flags.persistent
            && match &site.kept4 {
                None => false,
                Some(lease) => self.gives_of(lease, net, now),
            }
    }
}
